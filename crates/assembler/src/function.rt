// A function as it stands in the row of steps.
ghost use Rattle.std.specs.Prelude.{◌≡◌, length, drop, MatchOption};
ghost use Rattle.rows.specs.Has.{Has};
ghost use Rattle.steps.specs.Steps.{MFn};
ghost use Rattle.generator.specs.StepRows.{fn_words};
ghost use Rattle.assembler.specs.Tables.{Head};

// What is read of a function: the words that are passed to it, its variables, its places, and its steps, five words each.
#[derive(Clone, Copy)]
pub struct Function<'a> {
    pub params: u32,
    pub vars: u32,
    pub places: u32,
    pub steps: &'a [[u32; 5]],
}

// The function that stands first, and what stands behind it.
pub fn split_function(row: &[u32]) -> Option<(Function, &[u32])>
    ensures { (f : MFn) → Has row.now 0 (fn_words f) → MatchOption result ⊥ (λ p. Head p.0 f × (p.1.now ≡ drop (length (fn_words f)) row.now)) }
{
    let (&[params, vars, places, count], rest) = row.split_first_chunk::<4>()?;
    let (chunks, _) = rest.as_chunks::<5>();
    let count = chunks.len().min(count as usize);
    let function = Function {
        params,
        vars,
        places,
        steps: &chunks[..count],
    };
    Some((function, &rest[5 * count..]))
}

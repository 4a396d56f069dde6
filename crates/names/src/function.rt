// A function and what names are to it.
ghost use Rattle.std.specs.Prelude.{◌≡◌};
ghost use Rattle.language.specs.Syntax.{Name, Fn, Prog};
ghost use Rattle.language.specs.Checks.{kind_of, params_of, params_of_table};
ghost use Rattle.steps.specs.Generate.{scope, slots_of};
ghost use Rattle.names.specs.Function.{IsFunction};
ghost use Rattle.names.specs.Kinds.{kind_found, called, FindsParams, FindsCalled};
ghost use Rattle.names.specs.Refer.{meant};

use crate::file::File;
use crate::found::{Reference, Spot};
use crate::kinds::{own_in, params_at};
use crate::refer::{own_reference, top_reference};
use limits::entries::{Entries, Locals};
use rows::kind::LocalKind;

// A function: the place of the item that it is of its file.
#[derive(Clone, Copy)]
pub struct Function<'a> {
    pub file: File<'a>,
    pub item: usize,
}

impl<'a> Function<'a> {
    // The kind of a name.
    pub fn kind_of(self, name: &[u32]) -> Option<LocalKind>
        ensures { (p : Prog) (f : Name) (g : Fn) → IsFunction p f g self.entry → result ≡ kind_found (kind_of p f g name.now) }
    {
        match own_in(self.file.row, self.item, name) {
            Some(own) => Some(own.kind),
            None => self.file.top_kind(name),
        }
    }

    // What a name stands for where a word or an array is wanted.
    pub fn refer(self, name: &[u32]) -> Reference
        ensures { (p : Prog) (f : Name) (g : Fn) → IsFunction p f g self.entry → result ≡ meant (scope p f (slots_of g)) name.now }
    {
        if let Some(own) = own_in(self.file.row, self.item, name) {
            return own_reference(own);
        }
        match self.file.resolve(name) {
            Some(spot) => top_reference(self.file.row, spot),
            None => Reference::Other,
        }
    }

    // What a name means that is called: the function's own names hide it.
    fn find_called(self, name: &[u32]) -> Option<Spot>
        ensures { (p : Prog) (f : Name) (g : Fn) → IsFunction p f g self.entry → FindsCalled self.entry.file.row.now (called p f g name.now) result }
    {
        if own_in(self.file.row, self.item, name).is_some() {
            return None;
        }
        self.file.resolve(name)
    }

    // The parameters of what it calls.
    pub fn params_of(self, name: &[u32]) -> Option<Entries<'a, Locals>>
        ensures { (p : Prog) (f : Name) (g : Fn) → IsFunction p f g self.entry → FindsParams self.entry.file.row.now (params_of p f g name.now) result }
    {
        let spot = self.find_called(name)?;
        params_at(self.file.row, spot.item)
    }

    // The parameters of the functions of a table that it calls.
    pub fn params_of_table(self, name: &[u32]) -> Option<Entries<'a, Locals>>
        ensures { (p : Prog) (f : Name) (g : Fn) → IsFunction p f g self.entry → FindsParams self.entry.file.row.now (params_of_table p f g name.now) result }
    {
        let spot = self.find_called(name)?;
        let home = File {
            name: spot.file,
            ..self.file
        };
        home.table_at(spot.item)
    }
}

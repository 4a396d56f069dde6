// What is wrong with an item of a file, and exactly where; the text begins with the item.
use super::files::is_file;
use super::problem::Fault;
use super::search::Search;
use super::seeking::{from_large, is_any_name, is_number};
use limits::entries::{Entries, LETTERS, Locals, Names, is_named, used};
use limits::head::{head_of, own_arrays};
use limits::{MOST_ARRAYS, MOST_OWN, MOST_PARAMS, MOST_VARS};
use names::file::File;
use names::function::Function;
use places::{Located, from_piece, locate, past_pieces};
use rows::kind::ItemKind;
use rows::read::{at, item_kind_at, name_at, past_name, same_at};

// The first of a function's names that comes a second time.
fn doubled_name(row: &[u32], locals: Entries<Locals>) -> Option<usize> {
    let (k, _) = locals.enumerate().find(|(k, local)| {
        let name = name_at(row, local.saturating_add(LETTERS));
        locals
            .take(*k)
            .any(|other| is_named(row, other.saturating_add(LETTERS), name))
    })?;
    Some(k)
}

// Whether the size of a function's own array is in range.
fn size_fits(row: &[u32], array: usize) -> bool {
    let size = at(row, array.saturating_add(1));
    let high = at(row, array.saturating_add(2));
    high == 0 && (1..=MOST_OWN).contains(&size)
}

// What is wrong with a function that is beyond its limits.
fn function_limit(whole: &[u8], text: &[u8], row: &[u32], item: usize) -> Located<Fault> {
    let head = head_of(row, item);
    let params = head.params.len();
    let (name, fault) = if params > MOST_PARAMS {
        (MOST_PARAMS, Fault::TooManyParameters)
    } else if head.vars > MOST_VARS {
        (params + MOST_VARS, Fault::TooManyVariables)
    } else if head.arrays > MOST_ARRAYS {
        (params + head.vars + MOST_ARRAYS, Fault::TooManyArrays)
    } else if let Some(again) = doubled_name(row, head.locals) {
        (again, Fault::DoubledName)
    } else {
        let size = own_arrays(row, head)
            .position(|array| !size_fits(row, array))
            .unwrap_or(0);
        return locate(
            whole,
            from_piece(text, size, is_number),
            Fault::SizeOutOfRange,
        );
    };
    locate(
        whole,
        from_piece(past_pieces(text, 2), name, is_any_name),
        fault,
    )
}

// What is wrong with an item that is beyond its limits.
pub(super) fn limit_fault(whole: &[u8], text: &[u8], row: &[u32], item: usize) -> Located<Fault> {
    let tail = past_name(row, item.saturating_add(2));
    match item_kind_at(row, item) {
        ItemKind::Function => function_limit(whole, text, row, item),
        ItemKind::Data => if at(row, tail.saturating_add(1)) == 0 {
            locate(whole, past_pieces(text, 3), Fault::NoValue)
        } else {
            locate(whole, from_large(text), Fault::NumberTooLarge)
        },
        _ => locate(whole, from_piece(text, 0, is_number), Fault::SizeOutOfRange),
    }
}

// What is wrong with the functions of a table, which are named behind their number, and with which of them.
fn table_fault(file: File, place: usize) -> (usize, Fault) {
    let row = file.row;
    let Some(params) = file.params_first(place) else {
        return (0, Fault::UnknownName);
    };
    let unlike = Entries::<Names>::counted(row, place)
        .enumerate()
        .find(|(_, name)| !file.is_alike(params, name_at(row, *name)));
    match unlike {
        Some((k, name)) if file.params_named(name_at(row, name)).is_none() => (
            k,
            Fault::UnknownName,
        ),
        Some((k, _)) => (k, Fault::TableUnlike),
        None => (0, Fault::TableUnlike),
    }
}

// The text from one of the names on that an item has in a list: it is the fourth piece or stands behind it, with commas between.
pub(super) fn from_listed(text: &[u8], n: usize) -> &[u8] {
    past_pieces(text, n.saturating_mul(2).saturating_add(3))
}

// What is wrong with what a use of a file takes of another.
fn use_fault(whole: &[u8], text: &[u8], file: File, item: usize) -> Located<Fault> {
    let row = file.row;
    let name = item.saturating_add(2);
    if same_at(row, name, file.name) || !is_file(row, at(row, 0), name_at(row, name)) {
        return locate(whole, past_pieces(text, 1), Fault::UnknownFile);
    }
    let missing = used(row, item)
        .position(|used| !(File { row, name }).is_there(name_at(row, used)))
        .unwrap_or(0);
    locate(whole, from_listed(text, missing), Fault::NotThere)
}

impl Search<'_> {
    // What an item refers to, of which a check fails.
    pub(super) fn check_reference(
        &mut self,
        text: &[u8],
        file: File,
        item: usize,
    ) -> Result<(), Located<Fault>> {
        let row = file.row;
        match item_kind_at(row, item) {
            ItemKind::Function => self.check_function(text, Function { file, item }),
            ItemKind::Table => {
                let list = past_name(row, item.saturating_add(2));
                let (which, fault) = table_fault(file, list);
                Err(locate(self.text, from_listed(text, which), fault))
            }
            _ => Err(use_fault(self.text, text, file, item)),
        }
    }
}

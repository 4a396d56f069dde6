// Which check a row fails, in the order in which a reader comes to it, and exactly where.
use super::files::doubled_file;
use super::item::{from_listed, limit_fault};
use super::problem::Fault;
use super::search::Search;
use limits::entries::{Entries, Items, Names, files_of, is_named, items_of, own_name, used};
use limits::{MOST_ELEMENTS, elements_of_item, files_once, item_fits, names_once};
use names::file::File;
use names::find::MAIN;
use places::{Located, from_item, locate, past_pieces};
use rows::kind::ItemKind;
use rows::read::{at, item_kind_at, name_at};

// Whether an item gives its file a name.
fn gives(row: &[u32], item: usize, name: &[u32]) -> bool {
    match item_kind_at(row, item) {
        ItemKind::Use => used(row, item).have(0, name),
        _ => own_name(row, item) == name,
    }
}

// The first of the names that a use takes which is given before, by one of so many items or by the use itself.
fn used_again(row: &[u32], items: Entries<Items>, before: usize, item: usize) -> Option<usize> {
    let names = used(row, item);
    let (k, _) = names.enumerate().find(|(k, place)| {
        let name = name_at(row, *place);
        items.take(before).any(|other| gives(row, other, name))
            || names.take(*k).any(|other| is_named(row, other, name))
    })?;
    Some(k)
}

// The first name that the items of a file give a second time; so many items stand before them.
fn doubled_name(whole: &[u8], row: &[u32], file: usize, before: usize) -> Option<Located<Fault>> {
    let items = items_of(row, file);
    for (k, item) in items.enumerate() {
        let before = before.saturating_add(k);
        if item_kind_at(row, item) == ItemKind::Use {
            if let Some(which) = used_again(row, items, k, item) {
                let text = from_item(whole, before);
                return Some(locate(whole, from_listed(text, which), Fault::DoubledName));
            }
        } else if items
            .take(k)
            .any(|other| gives(row, other, own_name(row, item)))
        {
            let text = from_item(whole, before);
            return Some(locate(whole, past_pieces(text, 1), Fault::DoubledName));
        }
    }
    None
}

// The array at the top with which there are too many elements, if so: how many items stand before it.
fn array_too_many(row: &[u32]) -> Option<usize> {
    let mut sum: usize = 0;
    let mut before: usize = 0;
    for file in files_of(row) {
        for item in items_of(row, file) {
            sum = sum.saturating_add(elements_of_item(row, item));
            if sum > MOST_ELEMENTS {
                return Some(before);
            }
            before = before.saturating_add(1);
        }
    }
    None
}

// What is wrong with main.
fn main_fault(whole: &[u8], row: &[u32]) -> Located<Fault> {
    match (File { row, name: 1 }).find_top(&MAIN) {
        Some(found) => {
            let before = items_of(row, 1)
                .position(|item| item == found.item)
                .unwrap_or(0);
            let text = from_item(whole, before);
            locate(whole, past_pieces(text, 1), Fault::MainUnlike)
        }
        None => locate(whole, past_pieces(whole, 1), Fault::NoMain),
    }
}

impl Search<'_> {
    // An item that a check fails; so many items stand before it.
    fn check_item_exactly(
        &mut self,
        file: usize,
        item: usize,
        before: usize,
    ) -> Result<(), Located<Fault>> {
        let row = self.row;
        if !item_fits(row, item) {
            let text = from_item(self.text, before);
            return Err(limit_fault(self.text, text, row, item));
        }
        let file = File { row, name: file };
        if file.check_item(item, self.pile) {
            return Ok(());
        }
        self.check_reference(from_item(self.text, before), file, item)
    }

    // The items of a file; so many items stand before them.
    fn check_items(&mut self, file: usize, before: usize) -> Result<(), Located<Fault>> {
        let row = self.row;
        if !names_once(row, file) {
            return match doubled_name(self.text, row, file, before) {
                Some(doubled) => Err(doubled),
                None => Ok(()),
            };
        }
        for (k, item) in items_of(row, file).enumerate() {
            self.check_item_exactly(file, item, before.saturating_add(k))?;
        }
        Ok(())
    }

    fn check_all_items(&mut self) -> Result<(), Located<Fault>> {
        let mut before: usize = 0;
        for file in files_of(self.row) {
            self.check_items(file, before)?;
            before = before.saturating_add(items_of(self.row, file).len());
        }
        Ok(())
    }
}

// What is wrong with a program that the parser accepts and the checks do not.
pub(super) fn find_fault(search: &mut Search) -> Located<Fault> {
    let (whole, row) = (search.text, search.row);
    if at(row, 0) == 0 {
        return locate(whole, whole, Fault::NoFile);
    }
    if !files_once(row) {
        return doubled_file(whole, row);
    }
    if let Err(found) = search.check_all_items() {
        return found;
    }
    match array_too_many(row) {
        Some(item) => locate(
            whole,
            past_pieces(from_item(whole, item), 1),
            Fault::TooManyElements,
        ),
        None => main_fault(whole, row),
    }
}

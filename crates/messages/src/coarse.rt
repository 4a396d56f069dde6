// The first fault that a reader of the items comes to, and where it is, but for most faults of an item where that begins.
use super::function::check_node;
use super::problem::Fault;
use super::search::Search;
use super::seeking::{from_large, from_leaving, from_name};
use limits::entries::{Entries, Items, files_of, items_of, own_name};
use limits::head::body_of;
use limits::nodes::Body;
use limits::{files_once, item_fits, names_once, totals_fit};
use names::asking::depth_behind;
use names::file::File;
use names::function::Function;
use names::items::names_differ;
use places::{Located, from_item, locate};
use rows::kind::ItemKind;
use rows::read::{at, item_kind_at, past_name, tag_at};
use rows::tag::Tag;

// Which limit an item passes.
fn limit_of(row: &[u32], item: usize) -> Fault {
    let tail = past_name(row, item.saturating_add(2));
    match item_kind_at(row, item) {
        ItemKind::Data => if at(row, tail.saturating_add(1)) == 0 {
            Fault::NoValue
        } else {
            Fault::NumberTooLarge
        },
        ItemKind::Function => if at(row, tail) > 8 {
            Fault::TooManyParameters
        } else if at(row, tail.saturating_add(1)) > 64 {
            Fault::TooManyVariables
        } else if at(row, tail.saturating_add(2)) > 16 {
            Fault::TooManyArrays
        } else if names_differ(row, item) {
            Fault::SizeOutOfRange
        } else {
            Fault::DoubledName
        },
        _ => Fault::SizeOutOfRange,
    }
}

// Where the name of a node stands in the row.
fn name_of_node(row: &[u32], node: usize) -> usize {
    match tag_at(row, node) {
        Tag::Call | Tag::By => node.saturating_add(2),
        _ => node.saturating_add(1),
    }
}

// What is wrong with a function's body; the text begins with the function.
fn body_fault(whole: &[u8], text: &[u8], function: Function) -> Located<Fault> {
    let row = function.file.row;
    let mut depth: usize = 0;
    for node in Body::new(row, body_of(row, function.item)) {
        if let Err(fault) = check_node(function, node, depth) {
            let place = match fault {
                Fault::NumberTooLarge => from_large(text),
                Fault::OutsideLoop => from_leaving(text, 0),
                _ => from_name(text, row, name_of_node(row, node)),
            };
            return locate(whole, place, fault);
        }
        depth = depth_behind(tag_at(row, node), depth);
    }
    locate(whole, text, Fault::ArgumentKind)
}

// How many items further the name of an item comes again, among those that follow it.
fn comes_again(row: &[u32], item: usize, mut follow: Entries<Items>) -> Option<usize> {
    if item_kind_at(row, item) == ItemKind::Use {
        return None;
    }
    follow.position(|other| {
        item_kind_at(row, other) != ItemKind::Use && own_name(row, other) == own_name(row, item)
    })
}

impl Search<'_> {
    // What is wrong with an item, if anything; so many items stand before it.
    fn check_item_at(
        &mut self,
        file: usize,
        item: usize,
        before: usize,
    ) -> Result<(), Located<Fault>> {
        let row = self.row;
        let text = from_item(self.text, before);
        if !item_fits(row, item) {
            let fault = limit_of(row, item);
            let place = match fault {
                Fault::NumberTooLarge => from_large(text),
                _ => text,
            };
            return Err(locate(self.text, place, fault));
        }
        let file = File { row, name: file };
        if file.check_item(item, self.pile) {
            return Ok(());
        }
        Err(match item_kind_at(row, item) {
            ItemKind::Function => body_fault(self.text, text, Function { file, item }),
            ItemKind::Table => locate(self.text, text, Fault::TableUnlike),
            _ => locate(self.text, text, Fault::NotThere),
        })
    }

    // What is wrong with the items of a file, if anything; so many items stand before it.
    fn check_file(&mut self, file: usize, before: usize) -> Result<(), Located<Fault>> {
        let row = self.row;
        let mut number = before;
        let mut items = items_of(row, file);
        // not a `for`: the items that follow are asked for the name
        while let Some(item) = items.next() {
            if let Some(between) = comes_again(row, item, items) {
                let again = from_item(self.text, number.saturating_add(between).saturating_add(1));
                let place = from_name(again, row, item.saturating_add(2));
                return Err(locate(self.text, place, Fault::DoubledName));
            }
            self.check_item_at(file, item, number)?;
            number = number.saturating_add(1);
        }
        if names_once(row, file) {
            Ok(())
        } else {
            let text = from_item(self.text, before);
            Err(locate(self.text, text, Fault::DoubledName))
        }
    }

    fn check_files(&mut self) -> Result<(), Located<Fault>> {
        let mut before: usize = 0;
        for file in files_of(self.row) {
            self.check_file(file, before)?;
            before = before.saturating_add(items_of(self.row, file).len());
        }
        Ok(())
    }
}

// What is wrong with a program that the parser accepts and the checks do not.
pub(super) fn find_fault(search: &mut Search) -> Located<Fault> {
    let row = search.row;
    let start = |what| Located { at: 0, what };
    if !files_once(row) {
        return start(Fault::DoubledFile);
    }
    if let Err(found) = search.check_files() {
        return found;
    }
    if totals_fit(row) {
        start(Fault::NoMain)
    } else {
        start(Fault::TooManyElements)
    }
}

// What is wrong with a node of a function by itself.
use super::problem::Fault;
use limits::entries::{Entries, Locals};
use names::function::Function;
use rows::kind::LocalKind;
use rows::read::{at, name_at, tag_at};
use rows::tag::Tag;

// A call with so many arguments, by the parameters of what its name stands for.
fn check_call(params: Option<Entries<Locals>>, count: usize) -> Result<(), Fault> {
    if params.ok_or(Fault::UnknownName)?.len() == count {
        Ok(())
    } else {
        Err(Fault::Arguments)
    }
}

// A name where a word is wanted, or where an array is.
fn check_kind(function: Function, name: usize, array: bool) -> Result<(), Fault> {
    let kind = function
        .kind_of(name_at(function.file.row, name))
        .ok_or(Fault::UnknownName)?;
    if (kind != LocalKind::Word) == array {
        Ok(())
    } else {
        Err(Fault::WrongKind)
    }
}

// The node at a place, in so many loops.
pub(super) fn check_node(function: Function, node: usize, depth: usize) -> Result<(), Fault> {
    let row = function.file.row;
    let second = node.saturating_add(1);
    let third = node.saturating_add(2);
    match tag_at(row, node) {
        Tag::Num if at(row, third) != 0 => Err(Fault::NumberTooLarge),
        Tag::Var | Tag::Set => check_kind(function, second, false),
        Tag::Idx | Tag::Len | Tag::Store => check_kind(function, second, true),
        Tag::Arg => match function.kind_of(name_at(row, second)) {
            Some(_) => Ok(()),
            None => Err(Fault::UnknownName),
        },
        Tag::Call => check_call(function.params_of(name_at(row, third)), at(row, second)),
        Tag::By => check_call(
            function.params_of_table(name_at(row, third)),
            at(row, second),
        ),
        Tag::Break | Tag::Next if depth == 0 => Err(Fault::OutsideLoop),
        _ => Ok(()),
    }
}

// The kinds of items and of a function's names, in the order of their numbers.
ghost use Rattle.rows.specs.Kinds.{ItemNumbers, LocalNumbers};

#[derive(Clone, Copy, Debug, PartialEq, Eq)]
pub enum ItemKind {
    // a word
    Word,
    // an array, by its size
    Array,
    // an array with its values
    Data,
    // a table of functions
    Table,
    // a function
    Function,
    // what is used of another file
    Use,
}

// A parameter, a variable or an own array.
#[derive(Clone, Copy, Debug, PartialEq, Eq)]
pub enum LocalKind {
    Word,
    // an array of bytes
    Bytes,
    // an array of words
    Words,
}

// A word that is no kind's number.
#[derive(Clone, Copy, Debug, PartialEq, Eq)]
pub struct NoKind(pub u32);

impl TryFrom<u32> for ItemKind {
    type Error = NoKind;

    ghost try_from_gives = { ItemNumbers };

    fn try_from(number: u32) -> Result<ItemKind, NoKind> {
        match number {
            0 => Ok(ItemKind::Word),
            1 => Ok(ItemKind::Array),
            2 => Ok(ItemKind::Data),
            3 => Ok(ItemKind::Table),
            4 => Ok(ItemKind::Function),
            5 => Ok(ItemKind::Use),
            _ => Err(NoKind(number)),
        }
    }
}

impl TryFrom<u32> for LocalKind {
    type Error = NoKind;

    ghost try_from_gives = { LocalNumbers };

    fn try_from(number: u32) -> Result<LocalKind, NoKind> {
        match number {
            0 => Ok(LocalKind::Word),
            1 => Ok(LocalKind::Bytes),
            2 => Ok(LocalKind::Words),
            _ => Err(NoKind(number)),
        }
    }
}

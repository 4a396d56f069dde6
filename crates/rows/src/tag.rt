// The tags of nodes, in the order of their numbers: each stands before what belongs to its node.
ghost use Rattle.std.specs.Prelude.{◌≡◌};
ghost use Rattle.rows.specs.NodeTags.{Numbers, tag_no, lead, has_name};

#[derive(Clone, Copy, Debug, PartialEq, Eq)]
pub enum Tag {
    // a number, by two words
    Num,
    // a variable, by its name
    Var,
    // an operator between two, by its number
    Bin,
    // between the operands of &&
    And,
    // between the operands of ||
    Or,
    // behind the operands of && and ||
    Join,
    // an operator before one, by its number
    Un,
    // an element of an array, behind its index
    Idx,
    // the length of an array
    Len,
    // a call, behind its arguments
    Call,
    // a call by a table
    By,
    // a word that is read in
    In,
    // what a variable is set to
    Set,
    // what is stored in an array
    Store,
    // an expression that is a statement
    Ex,
    // a word that is put out
    Out,
    // behind a condition of `if`
    If,
    // between the two parts
    Else,
    // behind the two parts
    Fi,
    // before a condition of `while`
    Loop,
    // behind a condition of `while`
    While,
    // behind the body of `while`
    Again,
    // what is returned
    Ret,
    // out of the loop
    Break,
    // back to the condition
    Next,
    // the end of a body
    End,
    // a name that is an argument by itself
    Arg,
}

// A word that is no node's tag.
#[derive(Clone, Copy, Debug, PartialEq, Eq)]
pub struct NoTag(pub u32);

impl Tag {
    // How many words a node has, but for a name.
    pub fn lead(self) -> usize
        ensures { result ≡ lead (tag_no self) }
    {
        match self {
            Tag::Num => 3,
            Tag::Bin | Tag::Un | Tag::Call | Tag::By => 2,
            _ => 1,
        }
    }

    // Whether a node ends in a name.
    pub fn has_name(self) -> bool
        ensures { result ≡ has_name (tag_no self) }
    {
        matches!(
            self,
            Tag::Var | Tag::Idx | Tag::Len | Tag::Call | Tag::By | Tag::Set | Tag::Store | Tag::Arg
        )
    }
}

impl TryFrom<u32> for Tag {
    type Error = NoTag;

    ghost try_from_gives = { Numbers };

    fn try_from(number: u32) -> Result<Tag, NoTag> {
        match number {
            0 => Ok(Tag::Num),
            1 => Ok(Tag::Var),
            2 => Ok(Tag::Bin),
            3 => Ok(Tag::And),
            4 => Ok(Tag::Or),
            5 => Ok(Tag::Join),
            6 => Ok(Tag::Un),
            7 => Ok(Tag::Idx),
            8 => Ok(Tag::Len),
            9 => Ok(Tag::Call),
            10 => Ok(Tag::By),
            11 => Ok(Tag::In),
            12 => Ok(Tag::Set),
            13 => Ok(Tag::Store),
            14 => Ok(Tag::Ex),
            15 => Ok(Tag::Out),
            16 => Ok(Tag::If),
            17 => Ok(Tag::Else),
            18 => Ok(Tag::Fi),
            19 => Ok(Tag::Loop),
            20 => Ok(Tag::While),
            21 => Ok(Tag::Again),
            22 => Ok(Tag::Ret),
            23 => Ok(Tag::Break),
            24 => Ok(Tag::Next),
            25 => Ok(Tag::End),
            26 => Ok(Tag::Arg),
            _ => Err(NoTag(number)),
        }
    }
}

// A resolved node, as far as stage 0 has them, and the three words that it is in a row.
ghost use Rattle.std.specs.Prelude.{◌≡◌, slice_index, min};
ghost use Rattle.stepper.specs.Nodes.{decoded, counted};

use std::error::Error;
use std::fmt;

#[derive(Clone, Copy, Debug, PartialEq, Eq)]
pub enum Node {
    Num(u32),
    Own(u32),
    Copy(u32),
    Get(u32),
    Bin(u32),
    Un(u32),
    And,
    Or,
    Join,
    Call(u32, u32),
    Set(u32),
    SetWord(u32),
    Clear,
    Forget,
    Out,
    If,
    Else,
    Fi,
    Loop,
    While,
    Again,
    Ret,
    Break,
    Next,
    End,
}

// A tag that no node of stage 0 has.
#[derive(Clone, Copy, Debug, PartialEq, Eq)]
pub struct UnknownNode(pub u32);

impl fmt::Display for UnknownNode {
    fn fmt<W: fmt::Write>(&self, f: &mut fmt::Formatter<W>) -> fmt::Result {
        write!(f, "no node has the tag {}", self.0)
    }
}

impl Error for UnknownNode {}

impl TryFrom<[u32; 3]> for Node {
    type Error = UnknownNode;

    ghost try_from_gives = { λ words result. result ≡ decoded (slice_index words 0) (slice_index words 1) (slice_index words 2) };

    fn try_from(words: [u32; 3]) -> Result<Node, UnknownNode> {
        let [tag, x, y] = words;
        match tag {
            0 => Ok(Node::Num(x)),
            1 => Ok(Node::Own(x)),
            2 => Ok(Node::Copy(x)),
            3 => Ok(Node::Get(x)),
            5 => Ok(Node::Bin(x)),
            6 => Ok(Node::Un(x)),
            7 => Ok(Node::And),
            8 => Ok(Node::Or),
            9 => Ok(Node::Join),
            12 => Ok(Node::Call(x, y)),
            15 => Ok(Node::Set(x)),
            16 => Ok(Node::SetWord(x)),
            17 => Ok(Node::Clear),
            19 => Ok(Node::Forget),
            20 => Ok(Node::Out),
            21 => Ok(Node::If),
            22 => Ok(Node::Else),
            23 => Ok(Node::Fi),
            24 => Ok(Node::Loop),
            25 => Ok(Node::While),
            26 => Ok(Node::Again),
            27 => Ok(Node::Ret),
            28 => Ok(Node::Break),
            29 => Ok(Node::Next),
            30 => Ok(Node::End),
            4 | 10 | 11 | 13 | 14 | 18 | 31..=u32::MAX => Err(UnknownNode(tag)),
        }
    }
}

impl Node {
    // How many values are counted behind a node, of so many before it.
    pub fn count_behind(self, count: u32) -> u32
        ensures { result ≡ min (counted self count) 4294967295 }
    {
        match self {
            Node::Num(_) | Node::Own(_) | Node::Copy(_) | Node::Get(_) | Node::End => {
                count.saturating_add(1)
            }
            Node::Bin(_) => count.saturating_sub(2).saturating_add(1),
            Node::Un(_) | Node::Join => count.saturating_sub(1).saturating_add(1),
            Node::Call(_, arguments) => count.saturating_sub(arguments).saturating_add(1),
            Node::And | Node::Or | Node::If | Node::While => count.saturating_sub(1),
            Node::Set(_) | Node::SetWord(_) | Node::Clear | Node::Forget => count.saturating_sub(1),
            Node::Out | Node::Ret => count.saturating_sub(1),
            Node::Else | Node::Fi | Node::Loop | Node::Again | Node::Break | Node::Next => count,
        }
    }
}

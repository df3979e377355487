// The tread lists that go by a name, each with its width and generator.
ghost use Rattle.std.specs.Prelude.{◌≡◌, Some, codes, MatchOption, MatchResult};
ghost use Rattle.layout.specs.Named.{row_of, IsNumbered, HasName, NoName, IsRow};
ghost use Rattle.layout.specs.declared.named.ListName.{ListName};

use crate::layout::Layout;
use crate::width::Width;
use std::error::Error;
use std::fmt;
use std::str::FromStr;

#[derive(Clone, Copy, PartialEq, Eq, Debug, Hash)]
pub enum ListName {
    V4,
    V4Small,
    V6,
}

// No list goes by the name.
#[derive(Clone, Copy, PartialEq, Eq, Debug, Hash)]
pub struct UnknownList;

// What a list has beside its name.
#[derive(Clone, Copy)]
struct Row {
    width: Width,
    generator: u32,
    treads: &'static [u8],
}

const V4: Row = Row {
    width: Width::IPV4,
    generator: 0x1100D,
    treads: &[0, 8, 12, 16, 20, 24, 28, 32],
};

const V4_SMALL: Row = Row {
    width: Width::IPV4,
    generator: 0x11D,
    treads: &[0, 8, 16, 20, 24],
};

const V6: Row = Row {
    width: Width::IPV6,
    generator: 0x1100D,
    treads: &[0, 16, 32, 48, 64, 80, 96, 104, 112],
};

impl FromStr for ListName {
    type Err = UnknownList;

    ghost from_str_gives = { λ name r. MatchResult r (λ list. HasName list name) (λ _. NoName name) };

    fn from_str(name: &str) -> Result<ListName, UnknownList> {
        match name {
            "v4" => Ok(ListName::V4),
            "v4-small" => Ok(ListName::V4Small),
            "v6" => Ok(ListName::V6),
            _ => Err(UnknownList),
        }
    }
}

impl fmt::Display for ListName {
    ghost output = { λ list. Some (row_of list).name };

    fn fmt<W: fmt::Write>(&self, f: &mut fmt::Formatter<W>) -> fmt::Result {
        f.write_str(match self {
            ListName::V4 => "v4",
            ListName::V4Small => "v4-small",
            ListName::V6 => "v6",
        })
    }
}

impl fmt::Display for UnknownList {
    ghost output = { λ _. Some (codes "no list goes by the name") };

    fn fmt<W: fmt::Write>(&self, f: &mut fmt::Formatter<W>) -> fmt::Result {
        f.write_str("no list goes by the name")
    }
}

impl Error for UnknownList {}

impl ListName {
    fn row(self) -> Row
        ensures width { result.width.bits ≡ (row_of self).bits }
        ensures generator { result.generator ≡ (row_of self).generator }
        ensures treads { result.treads.now ≡ (row_of self).treads }
    {
        match self {
            ListName::V4 => V4,
            ListName::V4Small => V4_SMALL,
            ListName::V6 => V6,
        }
    }

    // The layout that goes by the name.
    #[tactic(auto, using(crate::proofs::NamedRows::never_refused))]
    pub fn layout(self) -> Layout
        ensures { IsRow self result }
    {
        let row = self.row();
        Layout::check(row.width, row.generator, row.treads).unwrap()
    }
}

// The number of the row that has the name, counted from 0.
pub fn row_number(name: &str) -> Option<usize>
    ensures { MatchOption result (NoName name.now) (λ i. IsNumbered i name.now) }
{
    let list = name.parse::<ListName>().ok()?;
    Some(list as usize)
}

// The layout that goes by the name.
pub fn named(name: &str) -> Option<Layout>
    ensures { MatchOption result (NoName name.now) (λ layout. (list : ListName) × HasName list name.now × IsRow list layout) }
{
    let list = name.parse::<ListName>().ok()?;
    Some(list.layout())
}

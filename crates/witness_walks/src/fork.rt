// `three_way_fork` by the kinds of its three parts, which are never all Pruned, and the records that a node becomes.
ghost use Rattle.std.specs.Prelude.{◌≡◌, eqb};
ghost use Rattle.witness_walks.specs.Records.{kind_of_part, kind_of_what, shape_of, records_of};

use crate::{Kind, Middle, Part, Records, Shape, What};

pub fn three_way_fork(l: Kind, m: Kind, r: Kind) -> Shape
    ensures { result ≡ shape_of l m r }
{
    match (l, m, r) {
        (Kind::Empty, _, Kind::Empty) => Shape::M,
        (_, _, Kind::Empty) => Shape::ForkLM,
        (Kind::Empty, _, _) => Shape::ForkMR,
        (_, Kind::Pruned, Kind::Pruned) => Shape::ForkLPrunedMR,
        _ => Shape::ForkLForkMR,
    }
}

// A missing child is Empty; a hidden side is Pruned; a side walked into holds a labelled key, so it is neither.
pub fn kind_of_part(part: Part, child: usize) -> Kind
    ensures { result ≡ kind_of_part (eqb child 0) part }
{
    match (child, part) {
        (0, _) => Kind::Empty,
        (_, Part::Nothing) => Kind::Empty,
        (_, Part::Hidden) => Kind::Pruned,
        (_, Part::Walked(_)) => Kind::Other,
    }
}

pub fn kind_of_what(what: What) -> Kind
    ensures { result ≡ kind_of_what what }
{
    match what {
        What::Hide => Kind::Pruned,
        What::Label | What::Show => Kind::Other,
    }
}

// The records of a node whose parts join in this shape: what each shape lacks, or has in place, of a Fork of the three.
pub fn records_of(shape: Shape, left: Part, middle: What, right: Part) -> Records
    ensures { result ≡ records_of shape left middle right }
{
    let fork = Records {
        outer: true,
        left,
        inner: false,
        middle: Middle::Entry(middle),
        right,
    };
    match shape {
        Shape::M => Records {
            outer: false,
            left: Part::Nothing,
            right: Part::Nothing,
            ..fork
        },
        Shape::ForkLM => Records {
            right: Part::Nothing,
            ..fork
        },
        Shape::ForkMR => Records {
            left: Part::Nothing,
            ..fork
        },
        Shape::ForkLPrunedMR => Records {
            middle: Middle::Both,
            right: Part::Nothing,
            ..fork
        },
        Shape::ForkLForkMR => Records {
            inner: true,
            ..fork
        },
    }
}

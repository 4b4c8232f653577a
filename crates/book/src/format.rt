// The format: marks and kinds by number, the layout of a mark's fields, the range of a number.
ghost use Rattle.std.specs.Prelude.{◌≡◌, ◌<◌, ◌≤◌};
ghost use Rattle.book.specs.Format.{mark_of, kind_of, plan, laid, layout_of, role_of, total_of, Small, within, power_in, in_range};

// Marks, numbered from 1 in the order of document 01's table. They are numbers and no enum: document 01 has the reader decide by mark over
// number cases with ranges. 0 is no mark, and no Option says so: `mark_at` promises a number of any record that begins.
pub const TU: u8 = 1;

pub const TS: u8 = 2;

pub const TP: u8 = 3;

pub const VU: u8 = 4;

pub const VL: u8 = 5;

pub const VR: u8 = 6;

pub const VP: u8 = 7;

pub const PI: u8 = 8;

pub const PN: u8 = 9;

pub const PT: u8 = 10;

pub const EC: u8 = 11;

pub const EW: u8 = 12;

pub const EV: u8 = 13;

pub const ET: u8 = 14;

pub const EL: u8 = 15;

pub const E0: u8 = 16;

pub const E1: u8 = 17;

pub const EN: u8 = 18;

pub const EB: u8 = 19;

pub const SA: u8 = 20;

pub const SE: u8 = 21;

pub const EM: u8 = 22;

pub const EH: u8 = 23;

pub const CJ: u8 = 24;

pub const CL: u8 = 25;

pub const CR: u8 = 26;

pub const CD: u8 = 27;

pub const CA: u8 = 28;

pub const CP: u8 = 29;

pub const CN: u8 = 30;

pub const CK: u8 = 31;

pub const CF: u8 = 32;

pub const CQ: u8 = 33;

pub const CY: u8 = 34;

pub const CW: u8 = 35;

pub const CH: u8 = 36;

pub const FN: u8 = 37;

// Kinds of records, numbers for the same reason, with 0 for no mark as there. A field with one of these roles names a record of that kind.
pub const TYPE: u8 = 1;

pub const VALUE: u8 = 2;

pub const PATTERN: u8 = 3;

pub const EXPRESSION: u8 = 4;

pub const STATEMENT: u8 = 5;

pub const FUNCTION: u8 = 6;

// The other roles of a field, each with its range; END is an expression or 65535 for none. They are numbers as the kinds are, so that a
// range of roles says that a field names a record.
pub const NAME: u8 = 7;

pub const COUNT: u8 = 8;

pub const SOME: u8 = 9;

pub const VARIANTS: u8 = 10;

pub const BOUND: u8 = 11;

pub const UNDER: u8 = 12;

pub const JET: u8 = 13;

pub const WIDTH: u8 = 14;

pub const BITS: u8 = 15;

pub const END: u8 = 16;

// A mark's number by its two letters, 0 where there is no such mark.
#[tactic(auto, unfolding(crate::specs::Format::mark_of))]
pub fn mark_of(word: u16) -> u8
    ensures { result ≡ mark_of word }
{
    match word {
        0x7574 => TU,
        0x7374 => TS,
        0x7074 => TP,
        0x7576 => VU,
        0x6c76 => VL,
        0x7276 => VR,
        0x7076 => VP,
        0x6970 => PI,
        0x6e70 => PN,
        0x7470 => PT,
        0x6365 => EC,
        0x7765 => EW,
        0x7665 => EV,
        0x7465 => ET,
        0x6c65 => EL,
        0x3065 => E0,
        0x3165 => E1,
        0x6e65 => EN,
        0x6265 => EB,
        0x6173 => SA,
        0x6573 => SE,
        0x6d65 => EM,
        0x6865 => EH,
        0x6a63 => CJ,
        0x6c63 => CL,
        0x7263 => CR,
        0x6463 => CD,
        0x6163 => CA,
        0x7063 => CP,
        0x6e63 => CN,
        0x6b63 => CK,
        0x6663 => CF,
        0x7163 => CQ,
        0x7963 => CY,
        0x7763 => CW,
        0x6863 => CH,
        0x6e66 => FN,
        _ => 0,
    }
}

// The kind of a mark's records, 0 for no mark.
#[tactic(auto, unfolding(crate::specs::Format::kind_of))]
pub fn kind_of(mark: u8) -> u8
    ensures { result ≡ kind_of mark }
{
    match mark {
        TU..=TP => TYPE,
        VU..=VP => VALUE,
        PI..=PT => PATTERN,
        EC..=EB => EXPRESSION,
        SA..=SE => STATEMENT,
        EM..=CH => EXPRESSION,
        FN => FUNCTION,
        _ => 0,
    }
}

// The roles of a record's fields: the head, then a group as often as the last of the head says, then
// one more unless `last` is 0, which is no role: `role_of` would have to give one for `None` too.
#[derive(Clone, Copy)]
pub struct Layout<'a> {
    pub head: &'a [u8],
    pub each: &'a [u8],
    pub last: u8,
}

fn lay<'a>(head: &'a [u8], each: &'a [u8], last: u8) -> Layout<'a>
    ensures { laid result ≡ plan head.now each.now last }
{
    Layout { head, each, last }
}

// The layout of a mark's fields.
#[tactic(auto, unfolding(crate::specs::Format::layout_of))]
pub fn layout_of(mark: u8) -> Layout<'static>
    ensures { laid result ≡ layout_of mark }
{
    match mark {
        TS..=TP => lay(&[TYPE, TYPE], &[], 0),
        VU => lay(&[TYPE], &[], 0),
        VL..=VR => lay(&[TYPE, VALUE], &[], 0),
        VP => lay(&[TYPE, VALUE, VALUE], &[], 0),
        PI => lay(&[NAME], &[], 0),
        PT => lay(&[COUNT], &[PATTERN], 0),
        EC => lay(&[TYPE, VALUE], &[], 0),
        EW..=EV => lay(&[TYPE, NAME], &[], 0),
        ET => lay(&[TYPE, COUNT], &[EXPRESSION], 0),
        EL => lay(&[TYPE, BOUND, UNDER], &[EXPRESSION], 0),
        E0..=E1 => lay(&[TYPE, EXPRESSION], &[], 0),
        EN => lay(&[TYPE, NAME, VARIANTS, COUNT], &[EXPRESSION], 0),
        EB => lay(&[TYPE, COUNT], &[STATEMENT], END),
        SA => lay(&[PATTERN, EXPRESSION], &[], 0),
        SE => lay(&[EXPRESSION], &[], 0),
        EM => lay(
            &[TYPE, EXPRESSION, PATTERN, EXPRESSION, PATTERN, EXPRESSION],
            &[],
            0,
        ),
        EH => lay(&[TYPE, EXPRESSION, SOME], &[PATTERN, EXPRESSION], 0),
        CJ => lay(&[TYPE, NAME, JET, COUNT], &[EXPRESSION], 0),
        CL..=CA => lay(&[TYPE, NAME, EXPRESSION], &[], 0),
        CP => lay(&[TYPE, NAME], &[], 0),
        CN..=CK => lay(&[TYPE, EXPRESSION], &[], 0),
        CF => lay(&[TYPE, FUNCTION, COUNT], &[EXPRESSION], 0),
        CQ => lay(&[TYPE, FUNCTION, BOUND, EXPRESSION, EXPRESSION], &[], 0),
        CY => lay(&[TYPE, FUNCTION, SOME, EXPRESSION, EXPRESSION], &[], 0),
        CW => lay(&[TYPE, FUNCTION, WIDTH, EXPRESSION, EXPRESSION], &[], 0),
        CH => lay(&[TYPE, NAME, COUNT], &[BITS, EXPRESSION], 0),
        FN => lay(&[TYPE, COUNT], &[NAME, TYPE], EXPRESSION),
        _ => lay(&[], &[], 0),
    }
}

// The role of field k, where the group stands n times.
#[tactic(auto, unfolding(crate::specs::Format::role_of))]
pub fn role_of(l: Layout, n: usize, k: usize) -> u8
    requires small { Small (laid l) }
    requires n_in_range { n < 65536 }
    ensures { result ≡ role_of (laid l.entry) n k }
{
    let heads = l.head.len();
    let eachs = l.each.len();
    if k < heads {
        l.head[k]
    } else if k - heads < n * eachs {
        l.each[(k - heads) % eachs]
    } else {
        l.last
    }
}

// How many fields there are, where the group stands n times.
#[tactic(auto, unfolding(crate::specs::Format::total_of))]
pub fn total_of(l: Layout, n: usize) -> usize
    requires small { Small (laid l) }
    requires n_in_range { n < 65536 }
    ensures { result ≡ total_of (laid l.entry) n }
{
    l.head.len() + n * l.each.len() + usize::from(l.last != 0)
}

// A power of two between two ends, both counted in.
fn power_in(lo: u16, hi: u16, x: u16) -> bool
    requires { hi ≤ 256 }
    ensures { result ≡ power_in lo hi x }
{
    (lo..=hi).contains(&x) && x.is_power_of_two()
}

// Whether a field may hold the number x, where the field before it holds `before`.
#[tactic(auto, unfolding(crate::specs::Format::in_range))]
pub fn in_range(role: u8, before: u16, x: u16) -> bool
    ensures { result ≡ in_range role before x }
{
    match role {
        COUNT => x <= 256,
        SOME => (1..=256).contains(&x),
        VARIANTS => before < x && x <= 256,
        BOUND => power_in(2, 256, x),
        UNDER => x < before,
        JET => x <= 2,
        WIDTH => power_in(1, 16, x),
        BITS => power_in(8, 256, x),
        _ => true,
    }
}

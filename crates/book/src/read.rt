// READ: record by record, in document 01's order of judgement.
ghost use Rattle.std.specs.Prelude.{◌≡◌, Bool, List, ℕ, ◌+◌, ◌*◌, ◌-◌, ◌≤◌, ◌<◌, length};
ghost use Rattle.book.specs.Format.{TYPE, kind_of, laid};
ghost use Rattle.book.specs.Read.{mark_at, kind_at, count_in, total_at, role_at, names, once, refer, judge, fields, alike, repeats, state, settle, step, is_unnamed, loose, records, read_of, index_of, good};
ghost use Rattle.book.specs.Ready.{Framed, Opens, Rows, Ready, chain_of, Chained, joined, Carried, frame_from, frame_of, named_of, verdict_of, moved_of, outcome_of, nothing, OthersKept};
ghost use Rattle.book.specs.Faults.{refusal};

use crate::fault::{Fault, Refusal};
use crate::format::{
    END, EXPRESSION, FUNCTION, Layout, STATEMENT, TU, TYPE, in_range, kind_of, layout_of, mark_of,
    role_of, total_of,
};
use crate::word::word;

// What READ knows of a record: where it stands, its mark, how often its group stands, and where it ends.
#[derive(Clone, Copy)]
struct Frame {
    at: usize,
    mark: u8,
    count: usize,
    end: usize,
}

// READ's answer, and where each record begins. They stand side by side, and not in a case of the answer: the index is promised after a
// refusal too, zeros throughout.
#[derive(Clone, Copy)]
pub struct Indexed {
    pub answer: Result<u16, Refusal>,
    pub index: [u16; 4096],
}

// How often a record's group stands: the last of its first fields says it.
#[tactic(auto, unfolding(crate::specs::Read::count_in))]
fn count_in(book: &[u8], at: usize, layout: Layout) -> usize
    requires { at + 2 + 2 * length layout.head.now ≤ length book.now }
    ensures { (result ≡ count_in book.now at (laid layout.entry)) × (result < 65536) }
{
    if layout.each.is_empty() {
        0
    } else {
        word(book, at + 2 * layout.head.len()) as usize
    }
}

// CUT by the record's length, which its count says even where that is out of range.
#[tactic(auto, using(crate::proofs::Frames::small_is, crate::proofs::Frames::total_fits))]
fn frame_from(book: &[u8], at: usize, mark: u8) -> Result<Frame, Fault>
    requires at_fits { at + 2 ≤ length book.now }
    requires book_in_range { length book.now < 65536 }
    requires mark_is { mark ≡ mark_at book.now at }
    ensures { result ≡ frame_from book.now at }
{
    let layout = layout_of(mark);
    if book.len() < at + 2 + 2 * layout.head.len() {
        return Err(Fault::Cut);
    }
    let count = count_in(book, at, layout);
    let end = at + 2 + 2 * total_of(layout, count);
    if book.len() < end {
        return Err(Fault::Cut);
    }
    Ok(Frame {
        at,
        mark,
        count,
        end,
    })
}

// CUT if one byte is left, then MARK, then CUT.
#[tactic(auto, unfolding(crate::specs::Ready::frame_of, crate::specs::Read::mark_at))]
fn frame_of(book: &[u8], at: usize) -> Result<Frame, Fault>
    requires at_fits { at < length book.now }
    requires book_in_range { length book.now < 65536 }
    ensures { result ≡ frame_of book.now at }
{
    if book.len() < at + 2 {
        return Err(Fault::Cut);
    }
    let mark = mark_of(word(book, at));
    if mark == 0 {
        return Err(Fault::Mark);
    }
    frame_from(book, at, mark)
}

// The kind of the record at an offset.
#[tactic(auto, unfolding(crate::specs::Read::kind_at, crate::specs::Read::mark_at))]
fn kind_at(book: &[u8], at: usize) -> u8
    requires { at + 1 < length book.now }
    ensures { result ≡ kind_at book.now at }
{
    kind_of(mark_of(word(book, at)))
}

// The kind of the record that a field of this role names by x, if it names one: 65535 is the book's own number for no end.
#[tactic(auto, unfolding(crate::specs::Read::names))]
fn kind_named(role: u8, x: u16) -> Option<u8>
    ensures { result ≡ named_of (names role x) }
{
    match role {
        TYPE..=FUNCTION => Some(role),
        END if x != 65535 => Some(EXPRESSION),
        _ => None,
    }
}

// An expression or statement is named once only.
#[tactic(auto, unfolding(crate::specs::Read::once))]
fn name_once(named: &mut [bool], x: usize, deep: u8) -> Result<u8, Fault>
    requires { x < length named.old }
    ensures { verdict_of result named.new ≡ once named.old x deep }
{
    if named[x] {
        return Err(Fault::Twice);
    }
    named[x] = true;
    Ok(deep)
}

// Whether two types have the same letters and the same fields: none, or two.
#[tactic(auto, using(crate::proofs::Alikes::both_within, crate::proofs::Frames::mark_within))]
fn is_alike(book: &[u8], frame: Frame, other: usize) -> bool
    requires opens { Opens book.now frame }
    requires kind_of_is { kind_of frame.mark ≡ TYPE }
    requires framed_other { Framed book.now other }
    ensures { result ≡ alike book.now frame.at other }
{
    word(book, frame.at) == word(book, other)
        && (frame.mark == TU
            || (word(book, frame.at + 2) == word(book, other + 2)
                && word(book, frame.at + 4) == word(book, other + 4)))
}

// Which of the 1,024 chains a type is in. Alike types are in one chain; the factors spread the others.
#[tactic(auto, using(crate::proofs::Alikes::two_within), unfolding(crate::specs::Ready::chain_of, crate::specs::Read::end_at))]
fn chain_of(book: &[u8], frame: Frame) -> usize
    requires opens { Opens book.now frame }
    requires kind_of_is { kind_of frame.mark ≡ TYPE }
    ensures { (result ≡ chain_of book.now frame.at) × (result < 1024) }
{
    if frame.mark == TU {
        return 0;
    }
    let first = word(book, frame.at + 2) as usize;
    let second = word(book, frame.at + 4) as usize;
    (67 * first + 2 * second + (frame.mark as usize)) % 1024
}

// Whether an expression or statement was never named.
#[tactic(auto, unfolding(crate::specs::Read::is_unnamed))]
fn is_unnamed(book: &[u8], at: usize, named: bool) -> bool
    requires { at + 1 < length book.now }
    ensures { result ≡ is_unnamed book.now at named }
{
    !named && matches!(kind_at(book, at), EXPRESSION..=STATEMENT)
}

// What is wrong with record r, or from there on.
fn refusal(fault: Fault, r: usize) -> Refusal
    requires { r ≤ 4096 }
    ensures { result ≡ refusal fault r }
{
    Refusal {
        fault,
        place: r as u16,
    }
}

// What READ knows of the records so far: where each begins, which expressions and statements were named, how deep each is; and the chains
// of types. A chain begins at its head, and each type's link leads on to an earlier one. Both hold a record's number and one more, and 0
// ends a chain: the memory is fixed, and an `Option` would double it. The book is no field: these rows are lent by `&mut`, and each promise
// would have to add that the book among them stays.
#[derive(Drop)]
struct Reader {
    index: [u16; 4096],
    named: [bool; 4096],
    depths: [u8; 4096],
    heads: [u16; 1024],
    links: [u16; 4096],
}

impl Reader {
    // Before the first record.
    fn new() -> Reader
        ensures { result ≡ nothing }
    {
        Reader {
            index: [0; 4096],
            named: [false; 4096],
            depths: [0; 4096],
            heads: [0; 1024],
            links: [0; 4096],
        }
    }

    // What record r names is earlier and of the kind, and no expression or statement again.
    #[tactic(auto, using(crate::proofs::Frames::mark_within), unfolding(crate::specs::Read::refer, crate::specs::Read::deeper))]
    fn refer_to(&mut self, book: &[u8], r: usize, kind: u8, x: usize, deep: u8) -> Result<u8, Fault>
        requires { Ready book.now self.old.index self.old.named self.old.depths r }
        ensures verdict { verdict_of result self.new.named ≡ refer book.now self.old.index self.old.depths r kind x self.old.named deep }
        ensures others { OthersKept self.old self.new }
    {
        if x >= r || kind_at(book, self.index[x] as usize) != kind {
            return Err(Fault::Reference);
        }
        let d = deep.max(self.depths[x]);
        match kind {
            EXPRESSION..=STATEMENT => name_once(&mut self.named, x, d),
            _ => Ok(d),
        }
    }

    // Field k of record r: its number in range, then what it names.
    #[tactic(auto, unfolding(crate::specs::Read::judge, crate::specs::Read::field_at))]
    fn judge_field(
        &mut self,
        book: &[u8],
        r: usize,
        at: usize,
        k: usize,
        role: u8,
        deep: u8,
    ) -> Result<u8, Fault>
        requires ready { Ready book.now self.old.index self.old.named self.old.depths r }
        requires at_fits { at + 2 + 2 * (k + 1) ≤ length book.now }
        requires role_is { role ≡ role_at book.now at k }
        ensures verdict { verdict_of result self.new.named ≡ judge book.now self.old.index self.old.depths r at k self.old.named deep }
        ensures others { OthersKept self.old self.new }
    {
        let x = word(book, at + 2 + 2 * k);
        if !in_range(role, word(book, at + 2 * k), x) {
            return Err(Fault::Number);
        }
        match kind_named(role, x) {
            Some(kind) => self.refer_to(book, r, kind, x as usize, deep),
            None => Ok(deep),
        }
    }

    // A record's fields, from left to right.
    #[tactic(auto, using(crate::proofs::Frames::small_is))]
    fn judge_fields(&mut self, book: &[u8], r: usize, frame: Frame) -> Result<u8, Fault>
        requires ready { Ready book.now self.old.index self.old.named self.old.depths r }
        requires opens { Opens book.now frame }
        ensures verdict { verdict_of result self.new.named ≡ fields book.now self.old.index self.old.depths r frame.at 0 (total_at book.now frame.at) self.old.named 0 }
        ensures others { OthersKept self.old self.new }
    {
        let layout = layout_of(frame.mark);
        let total = total_of(layout, frame.count);
        let mut deep = 0;
        for k in 0..total {
            let role = role_of(layout, frame.count, k);
            deep = self.judge_field(book, r, frame.at, k, role, deep)?;
        }
        Ok(deep)
    }

    // Whether a type is alike one of the first r records: along its chain, from the newest back.
    #[tactic(auto, using(crate::proofs::Alikes::repeats_not, crate::proofs::Chains::walk_none, crate::proofs::Chains::walk_found))]
    fn is_repeated(&self, book: &[u8], r: usize, frame: Frame) -> bool
        requires rows { Rows book.now self.now.index r }
        requires opens { Opens book.now frame }
        requires chained { Chained book.now self.now r }
        ensures { result ≡ repeats book.now self.now.index r frame.at }
    {
        if kind_of(frame.mark) != TYPE {
            return false;
        }
        let mut j = self.heads[chain_of(book, frame)] as usize;
        // Not a `for`: a chain says itself where it goes on.
        while 0 < j {
            if is_alike(book, frame, self.index[j - 1] as usize) {
                return true;
            }
            j = self.links[j - 1] as usize;
        }
        false
    }

    // A type becomes the newest of its chain, and leads on to the one that was.
    #[tactic(auto, unfolding(crate::specs::Ready::heads_with, crate::specs::Ready::links_with, crate::specs::Read::kind_at))]
    fn join_chain(&mut self, book: &[u8], r: usize, frame: Frame)
        requires r_in_range { r < 4096 }
        requires opens { Opens book.now frame }
        ensures { self.new ≡ joined book.now self.old r frame.at }
    {
        if kind_of(frame.mark) == TYPE {
            let chain = chain_of(book, frame);
            self.links[r] = self.heads[chain];
            self.heads[chain] = (r + 1) as u16;
        }
    }

    // A type that is new, a depth that is not too great: the record takes its place.
    #[tactic(auto, using(crate::proofs::Frames::mark_within), unfolding(crate::specs::Read::settle))]
    fn settle_record(
        &mut self,
        book: &[u8],
        r: usize,
        frame: Frame,
        deep: u8,
    ) -> Result<usize, Fault>
        requires rows { Rows book.now self.old.index r }
        requires r_in_range { r < 4096 }
        requires opens { Opens book.now frame }
        requires chained { Chained book.now self.old r }
        ensures moved { (m : List Bool) → moved_of result r self.new.index self.new.named self.new.depths ≡ settle book.now (state frame.at r self.old.index m self.old.depths) (good self.old.named deep) }
        ensures carried { Carried result book.now self.new r }
    {
        if self.is_repeated(book, r, frame) {
            return Err(Fault::Twice);
        }
        if deep == 255 {
            return Err(Fault::Depth);
        }
        self.index[r] = frame.at as u16;
        self.depths[r] = deep + 1;
        self.join_chain(book, r, frame);
        Ok(frame.end)
    }

    // One record.
    fn read_record(&mut self, book: &[u8], r: usize, at: usize) -> Result<usize, Fault>
        requires ready { Ready book.now self.old.index self.old.named self.old.depths r }
        requires r_in_range { r < 4096 }
        requires at_fits { at < length book.now }
        requires chained { Chained book.now self.old r }
        ensures moved { moved_of result r self.new.index self.new.named self.new.depths ≡ step book.now (state at r self.old.index self.old.named self.old.depths) }
        ensures carried { Carried result book.now self.new r }
    {
        let frame = frame_of(book, at)?;
        let deep = self.judge_fields(book, r, frame)?;
        self.settle_record(book, r, frame, deep)
    }

    // LOOSE: the first such before the last, else the last, if it is no expression.
    #[tactic(auto, using(crate::proofs::Frames::mark_within))]
    fn judge_loose(&self, book: &[u8], count: usize) -> Result<u16, Refusal>
        requires rows { Rows book.now self.now.index count }
        requires count_in_range { 0 < count }
        ensures { (p : ℕ) → outcome_of result self.now.index ≡ loose book.now (state p count self.now.index self.now.named self.now.depths) 0 (count - 1) }
    {
        let last = count - 1;
        for j in 0..last {
            if is_unnamed(book, self.index[j] as usize, self.named[j]) {
                return Err(refusal(Fault::Loose, j));
            }
        }
        if kind_at(book, self.index[last] as usize) != EXPRESSION {
            return Err(refusal(Fault::Loose, last));
        }
        Ok(count as u16)
    }

    // Record by record, up to 4,096 of them, and then LOOSE.
    fn read_records(&mut self, book: &[u8]) -> Result<u16, Refusal>
        requires ready { Ready book.now self.old.index self.old.named self.old.depths 0 }
        requires book_fits { 0 < length book.now }
        requires chained { Chained book.now self.old 0 }
        ensures { outcome_of result self.new.index ≡ records 4096 book.now (state 0 0 self.old.index self.old.named self.old.depths) }
    {
        let mut at = 0;
        let mut r = 0;
        // Not a `for`: a book ends by its bytes, and may end right after the last record that fits.
        while at < book.len() {
            if r == 4096 {
                return Err(refusal(Fault::Records, r));
            }
            at = self.read_record(book, r, at).map_err(|f| refusal(f, r))?;
            r += 1;
        }
        self.judge_loose(book, r)
    }
}

// READ, with the index of the records: where each begins.
pub fn index_book(book: &[u8]) -> Indexed
    ensures { (result.answer ≡ read_of book.now) × (result.index ≡ index_of book.now) }
{
    let none = [0; 4096];
    if !(1..65536).contains(&book.len()) {
        return Indexed {
            answer: Err(refusal(Fault::Size, 0)),
            index: none,
        };
    }
    let mut reader = Reader::new();
    match reader.read_records(book) {
        Ok(n) => Indexed {
            answer: Ok(n),
            index: reader.index,
        },
        Err(why) => Indexed {
            answer: Err(why),
            index: none,
        },
    }
}

// READ.
pub fn read(book: &[u8]) -> Result<u16, Refusal>
    ensures { result ≡ read_of book.now }
{
    index_book(book).answer
}

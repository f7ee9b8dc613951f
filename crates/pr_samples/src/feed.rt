//! Samples that are read one after the other from a file of any size.
ghost use Rattle.std.specs.Prelude.{◌≡◌, ◌≢◌, ◌↔◌, ℕ, ◌+◌, ◌-◌, ◌*◌, ◌^◌, ◌<◌, ◌≤◌, ◌⊎◌, ◌++◌, List, All, false, take, length, nat_lt, vec_len, vec_capacity, Option, Some, None, IfOk, IfSome, IfNone, IsErr, IsTrue, OnErr, OnOk, string_bytes};
ghost use Rattle.pr_edge.specs.Files.{IsMissing, HasReadCause, IsPart};
ghost use Rattle.pr_samples.specs.declared.tails.Tail.{Tail};
ghost use Rattle.pr_samples.specs.declared.scan.Met.{Met};
ghost use Rattle.pr_samples.specs.declared.scan.Phase.{Phase};
ghost use Rattle.pr_samples.specs.Fed.{Lawful};
ghost use Rattle.pr_samples.specs.Scan.{Found, fresh, scan_of, first_line, begun, taken_of, met_first, whole_end, cut_end};
ghost use Rattle.pr_samples.specs.Got.{is_sample, given_by};

use crate::items::front_line;
use crate::rooms::filled;
use crate::scan::{Cursor, Met, Phase, START, met_cut, met_whole, read_lines};
use crate::tails::Tail;
use pr_base::{Cap, Num};
use pr_edge::{Failed, Shelf};
use pr_lanes::copy_row;
use std::alloc::{AllocError, Global};

/// The bytes of the buffer of a feed.
const BUFFER: usize = 65_536;

/// What a feed answers.
#[derive(Clone, Copy, PartialEq, Eq, Debug)]
pub enum Got {
    /// The next sample.
    Sample,
    /// No line is left that is not blank.
    End,
    /// The line of this number, counted from 1, is not blank and no sample.
    BadSample { line: u64 },
    /// The file could not be read.
    ReadFault,
    /// The file, or its samples, passed this limit.
    Limit(Cap),
}

/// A file of samples that is read from its beginning, with a buffer of a fixed size. By its type the buffer and the lists
/// for numbers have room for what they hold and no more, so no call lets one grow.
#[derive(Drop)]
pub struct Feed {
    name: String,
    widths: Vec<u8>,
    numbers: Vec<Num>,
    /// The numbers of a line that was taken from the front at once, which are short.
    front: Vec<u64>,
    buffer: Vec<u8>,
    start: usize,
    end: usize,
    place: u64,
    tail: Tail,
    passed: u64,
    given: u64,
    most: u64,
    limit: u64,
    ghost lawful: { All (λ w. w ≤ 128) widths.items },
    ghost one_each: { vec_len numbers ≡ vec_len widths },
    ghost front_each: { vec_len front ≡ vec_len widths },
    ghost size: { vec_len buffer ≡ 65536 },
    ghost numbers_room: { vec_capacity numbers ≡ vec_len numbers },
    ghost front_room: { vec_capacity front ≡ vec_len front },
    ghost buffer_room: { vec_capacity buffer ≡ vec_len buffer },
    ghost window: { start ≤ end },
    ghost within: { end ≤ vec_len buffer },
    ghost lines: { passed + (end - start) ≤ place },
    ghost far: { place ≤ limit + 65536 },
    ghost low: { limit ≤ 2 ^ 44 },
    ghost few: { given ≤ most },
    ghost unended: { tail ≡ Tail.Open → place ≤ limit },
    ghost cut: { tail ≡ Tail.Cut → limit < place },
}

/// Puts numbers into places that hold greater ones too.
#[inline(always)]
fn widen_row(into: &mut [Num], numbers: &[u64])
    requires { length numbers.now ≡ length into.old }
    ensures { into.new ≡ numbers.now }
{
    // One by one, and of half the size: what was just written is read again sooner so than as a whole row.
    for i in 0..into.len() {
        into[i] = Num::from(numbers[i]);
    }
}

/// Whether no lawful line begins as the line that was read so far.
fn is_wrong(cursor: Cursor) -> bool
    ensures { IsTrue result ↔ (cursor.phase ≡ Phase.Wrong) }
{
    match cursor.phase {
        Phase::Wrong => true,
        Phase::Gap | Phase::Number(_) | Phase::Closed => false,
    }
}

impl Feed {
    ghost use Rattle.pr_samples.specs.Feed.{name_of, widths_of, limit_of, most_of, given_of, place_of, pending_of, reads_nothing, has_line, IsReady, SameFile, SameBytes, StandsFor, IsReadTo, IsMet, Tells, GivesNext, IsSeen, ReadsOn, tail_after};

    /// A feed over the file of this name, with an input of each of these widths.
    pub fn make(alloc: Global, name: &str, widths: &[u8]) -> Result<Feed, AllocError>
        requires { All (λ w. (1 ≤ w) × (w ≤ 128)) widths.now }
        ensures name { IfOk result (λ f. name_of f ≡ name.now) }
        ensures widths { IfOk result (λ f. widths_of f ≡ widths.now) }
        ensures limit { IfOk result (λ f. limit_of f ≡ 2 ^ 44) }
        ensures most { IfOk result (λ f. most_of f ≡ 2 ^ 40) }
        ensures start { IfOk result (λ f. reads_nothing f × (given_of f ≡ 0)) }
        ensures stands { IfOk result (λ f. (file : List ℕ) → StandsFor f file) }
    {
        Feed::make_within(alloc, name, widths, Cap::MOST_SAMPLES)
    }

    /// A feed that gives at most so many samples.
    pub fn make_within(
        alloc: Global,
        name: &str,
        widths: &[u8],
        most: u64,
    ) -> Result<Feed, AllocError>
        requires widths { All (λ w. (1 ≤ w) × (w ≤ 128)) widths.now }
        requires most { most ≤ 2 ^ 40 }
        ensures name { IfOk result (λ f. name_of f ≡ name.now) }
        ensures widths { IfOk result (λ f. widths_of f ≡ widths.now) }
        ensures limit { IfOk result (λ f. limit_of f ≡ 2 ^ 44) }
        ensures most { IfOk result (λ f. most_of f ≡ most) }
        ensures start { IfOk result (λ f. reads_nothing f × (given_of f ≡ 0)) }
        ensures stands { IfOk result (λ f. (file : List ℕ) → StandsFor f file) }
    {
        Feed::make_bounded(alloc, name, widths, most, Cap::MOST_SAMPLE_BYTES)
    }

    /// A feed that gives at most so many samples from so many bytes.
    pub fn make_bounded(
        alloc: Global,
        name: &str,
        widths: &[u8],
        most: u64,
        limit: u64,
    ) -> Result<Feed, AllocError>
        requires widths { All (λ w. (1 ≤ w) × (w ≤ 128)) widths.now }
        requires limit { limit ≤ 2 ^ 44 }
        ensures name { IfOk result (λ f. name_of f ≡ name.now) }
        ensures widths { IfOk result (λ f. widths_of f ≡ widths.now) }
        ensures limit { IfOk result (λ f. limit_of f ≡ limit) }
        ensures most { IfOk result (λ f. most_of f ≡ most) }
        ensures start { IfOk result (λ f. reads_nothing f × (given_of f ≡ 0)) }
        ensures stands { IfOk result (λ f. (file : List ℕ) → StandsFor f file) }
    {
        let name = String::from_str(alloc, name)?;
        let kept = Vec::from_slice(alloc, widths)?;
        let numbers = filled(alloc, 0, widths.len())?;
        let front = filled(alloc, 0, widths.len())?;
        let buffer = filled(alloc, 0, BUFFER)?;
        Ok(Feed {
            name,
            widths: kept,
            numbers,
            front,
            buffer,
            start: 0,
            end: 0,
            place: 0,
            tail: Tail::Open,
            passed: 0,
            given: 0,
            most,
            limit,
        })
    }

    /// The number of samples that it gave.
    pub fn given(&self) -> u64
        ensures given { result ≡ given_of self.now }
        ensures most { result ≤ most_of self.now }
    {
        self.given
    }

    /// Takes the line at the front, where it is a short number for each input with one space between two, and says whether it
    /// is. The numbers of the front are those of its sample then.
    #[inline(always)]
    fn take_front(&mut self) -> bool
        ensures found { IsTrue result → (more : List ℕ) →
            Found (Lawful self.new.front.items) self.new.passed (pending_of self.new ++ more)
            ≡ first_line (widths_of self.old) (fresh (widths_of self.old)) self.old.passed
            (pending_of self.old ++ more) }
        ensures passed { (result ≡ false) → self.new.passed ≡ self.old.passed }
        ensures pending { (result ≡ false) → pending_of self.new ≡ pending_of self.old }
        ensures file { SameFile self.old self.new }
        ensures bytes { SameBytes self.old self.new }
    {
        let bytes = &self.buffer[self.start..self.end];
        match front_line(&self.widths, &mut self.front, bytes) {
            None => false,
            Some(used) => {
                self.start += used;
                self.passed += 1;
                true
            }
        }
    }

    /// Reads the bytes of the buffer up to the first line that is not blank.
    fn meet(&mut self, cursor: Cursor) -> (Cursor, Option<Met>)
        requires { cursor.done + begun cursor.phase ≤ length (widths_of self.old) }
        ensures all { IfNone result.1 (self.new.start ≡ self.new.end) }
        ensures met { IfSome result.1 (λ met. met ≢ Met.Skipped) }
        ensures first { let widths = widths_of self.old in (more : List ℕ) →
            met_first widths result.1 self.new.numbers.items (scan_of widths self.new.numbers.items result.0)
            self.new.passed (pending_of self.new ++ more)
            ≡ first_line widths (scan_of widths self.old.numbers.items cursor)
            self.old.passed (pending_of self.old ++ more) }
        ensures room { result.0.done + begun result.0.phase ≤ length (widths_of self.old) }
        ensures file { SameFile self.old self.new }
        ensures bytes { SameBytes self.old self.new }
    {
        let bytes = &self.buffer[self.start..self.end];
        let part = read_lines(&self.widths, &mut self.numbers, cursor, self.passed, bytes);
        self.start += part.used;
        self.passed = part.passed;
        (part.cursor, part.met)
    }

    /// Takes up the bytes that a read put into the buffer.
    fn advance(&mut self, count: usize)
        requires count { count ≤ length self.old.buffer.items }
        requires spent { self.old.start ≡ self.old.end }
        requires open { self.old.tail ≡ Tail.Open }
        ensures file { SameFile self.old self.new }
        ensures given { self.new.given ≡ self.old.given }
        ensures passed { self.new.passed ≡ self.old.passed }
        ensures place { self.new.place ≡ self.old.place + count }
        ensures tail { self.new.tail ≡ tail_after count self.old.limit self.new.place }
        ensures pending { pending_of self.new ≡
            take (self.old.limit - self.old.place) (take count self.old.buffer.items) }
        ensures numbers { self.new.numbers ≡ self.old.numbers }
    {
        self.start = 0;
        self.end = count;
        self.place += count as u64;
        if count == 0 {
            self.tail = Tail::Ended;
        } else if self.place > self.limit {
            self.end -= (self.place - self.limit) as usize;
            self.tail = Tail::Cut;
        }
    }

    /// Whether as many samples were given as there may be.
    fn is_full(&self) -> bool
        ensures full { IsTrue result → self.now.given ≡ self.now.most }
        ensures room { (result ≡ false) → self.now.given < self.now.most }
        ensures small { self.now.most < 2 ^ 64 }
    {
        self.given == self.most
    }

    /// Answers the line that was taken from the front.
    #[inline(always)]
    fn give_front(&mut self, into: &mut [Num]) -> Got
        requires into { length into.old ≡ length (widths_of self.old) }
        ensures told { (file : List ℕ) → IsMet self.old (Lawful self.old.front.items) self.old.passed file
            → GivesNext result self.old self.new into.new file }
        ensures given { given_of self.new ≡ given_of self.old + given_by result }
        ensures into { (is_sample result ≡ false) → into.new ≡ into.old }
        ensures fault { result ≢ Got.ReadFault }
        ensures file { SameFile self.old self.new }
        ensures place { place_of self.new ≡ place_of self.old }
        ensures tail { self.new.tail ≡ self.old.tail }
    {
        if self.is_full() {
            return Got::Limit(Cap::Samples);
        }
        self.given += 1;
        widen_row(into, &self.front);
        Got::Sample
    }

    /// Answers the line that is over, of which the number is given.
    fn settle(&mut self, met: Met, line: u64, into: &mut [Num]) -> Got
        requires into { length into.old ≡ length (widths_of self.old) }
        requires met { met ≢ Met.Skipped }
        ensures told { (file : List ℕ) → IsMet self.old (taken_of met self.old.numbers.items) line file
            → GivesNext result self.old self.new into.new file }
        ensures given { given_of self.new ≡ given_of self.old + given_by result }
        ensures into { (is_sample result ≡ false) → into.new ≡ into.old }
        ensures fault { result ≢ Got.ReadFault }
        ensures file { SameFile self.old self.new }
        ensures place { place_of self.new ≡ place_of self.old }
        ensures tail { self.new.tail ≡ self.old.tail }
    {
        match met {
            Met::Skipped => Got::End,
            Met::Lawful => {
                if self.is_full() {
                    return Got::Limit(Cap::Samples);
                }
                self.given += 1;
                copy_row(into, &self.numbers);
                Got::Sample
            }
            Met::Unlawful => Got::BadSample { line },
            Met::CutShort => Got::Limit(Cap::SampleBytes),
        }
    }

    /// Answers the last line, which was read up to the cursor.
    fn finish(&mut self, cursor: Cursor, into: &mut [Num]) -> Got
        requires into { length into.old ≡ length (widths_of self.old) }
        requires room { cursor.done + begun cursor.phase ≤ length (widths_of self.old) }
        requires spent { self.old.start ≡ self.old.end }
        requires tail { self.old.tail ≢ Tail.Open }
        ensures told { (file : List ℕ) → IsReadTo self.old cursor file →
            GivesNext result self.old self.new into.new file }
        ensures given { given_of self.new ≡ given_of self.old + given_by result }
        ensures into { (is_sample result ≡ false) → into.new ≡ into.old }
        ensures fault { result ≢ Got.ReadFault }
        ensures file { SameFile self.old self.new }
        ensures place { place_of self.new ≡ place_of self.old }
        ensures tail { self.new.tail ≡ self.old.tail }
    {
        match self.tail {
            Tail::Cut => {
                let met = met_cut(&self.widths, cursor);
                self.settle(met, self.passed + 1, into)
            }
            _ => match met_whole(&self.widths, &mut self.numbers, cursor) {
                Met::Skipped => Got::End,
                met => self.settle(met, self.passed + 1, into),
            },
        }
    }

    /// Reads on until a line that is not blank is over, or bad, and answers it.
    fn read_on<S: Shelf>(&mut self, shelf: &mut S, cursor: Cursor, into: &mut [Num]) -> Got
        requires into { length into.old ≡ length (widths_of self.old) }
        requires room { cursor.done + begun cursor.phase ≤ length (widths_of self.old) }
        requires spent { self.old.start ≡ self.old.end }
        requires open { self.old.tail ≡ Tail.Open }
        requires fresh { cursor.phase ≢ Phase.Wrong }
        ensures seen { (bytes : List ℕ) → IsSeen (S.view shelf.old).told bytes self.old
            → ReadsOn (S.view shelf.old).told bytes self.old self.new
            (λ file. IsReadTo self.old cursor file → GivesNext result self.old self.new into.new file) }
        ensures given { given_of self.new ≡ given_of self.old + given_by result }
        ensures into { (is_sample result ≡ false) → into.new ≡ into.old }
        ensures file { SameFile self.old self.new }
        ensures cause { result ≡ Got.ReadFault
            → HasReadCause (S.view shelf.old).told (name_of self.old) (S.view shelf.old).faults
            (S.view shelf.new).faults }
        ensures missing { IsMissing (S.view shelf.old).told (name_of self.old) → result ≡ Got.ReadFault }
        ensures steady { result ≢ Got.ReadFault → (S.view shelf.new).faults ≡ (S.view shelf.old).faults }
        ensures later { (S.view shelf.old).faults ≤ (S.view shelf.new).faults }
        ensures same { (S.view shelf.new).told ≡ (S.view shelf.old).told }
        ensures reached { (S.view shelf.old).reach (name_of self.old) ≡ Some (place_of self.old)
            → (S.view shelf.new).reach (name_of self.old) ≡ Some (place_of self.new) }
        ensures others { (q : List ℕ) → q ≢ name_of self.old → (S.view shelf.new).reach q ≡ (S.view shelf.old).reach q }
    {
        let mut cursor = cursor;
        while self.tail.is_open() {
            if is_wrong(cursor) {
                return Got::BadSample {
                    line: self.passed + 1,
                };
            }
            match shelf.read_at(self.name.as_str(), self.place, &mut self.buffer) {
                Err(_) => return Got::ReadFault,
                Ok(count) => self.advance(count),
            }
            let (next, met) = self.meet(cursor);
            cursor = next;
            if let Some(met) = met {
                return self.settle(met, self.passed, into);
            }
        }
        self.finish(cursor, into)
    }

    /// Gives the next sample, whatever form its line has.
    #[inline(never)]
    fn next_line<S: Shelf>(&mut self, shelf: &mut S, into: &mut [Num]) -> Got
        requires { length into.old ≡ length (widths_of self.old) }
        ensures told { (file : List ℕ) → Tells (S.view shelf.old).told (name_of self.old) file → StandsFor self.old file
            → GivesNext result self.old self.new into.new file }
        ensures seen { (bytes : List ℕ) → IsSeen (S.view shelf.old).told bytes self.old
            → ReadsOn (S.view shelf.old).told bytes self.old self.new
            (λ file. StandsFor self.old file → GivesNext result self.old self.new into.new file) }
        ensures given { given_of self.new ≡ given_of self.old + given_by result }
        ensures into { (is_sample result ≡ false) → into.new ≡ into.old }
        ensures file { SameFile self.old self.new }
        ensures cause { result ≡ Got.ReadFault
            → HasReadCause (S.view shelf.old).told (name_of self.old) (S.view shelf.old).faults
            (S.view shelf.new).faults }
        ensures missing { IsMissing (S.view shelf.old).told (name_of self.old) → reads_nothing self.old →
            result ≡ Got.ReadFault }
        ensures quiet { IsReady self.old → ((S.view shelf.new).faults ≡ (S.view shelf.old).faults)
            × (result ≢ Got.ReadFault) }
        ensures steady { result ≢ Got.ReadFault → (S.view shelf.new).faults ≡ (S.view shelf.old).faults }
        ensures later { (S.view shelf.old).faults ≤ (S.view shelf.new).faults }
        ensures same { (S.view shelf.new).told ≡ (S.view shelf.old).told }
        ensures reached { (S.view shelf.old).reach (name_of self.old) ≡ Some (place_of self.old)
            → (S.view shelf.new).reach (name_of self.old) ≡ Some (place_of self.new) }
        ensures others { (q : List ℕ) → q ≢ name_of self.old → (S.view shelf.new).reach q ≡ (S.view shelf.old).reach q }
    {
        let (cursor, met) = self.meet(START);
        if let Some(met) = met {
            return self.settle(met, self.passed, into);
        }
        if is_wrong(cursor) {
            return Got::BadSample {
                line: self.passed + 1,
            };
        }
        if self.tail.is_open() {
            return self.read_on(shelf, cursor, into);
        }
        self.finish(cursor, into)
    }

    /// Gives the next sample: the numbers of the next line that is not blank, one for each input.
    ///
    /// It reads the file only where no such line stands whole in the bytes that it read before, and no further than up to a
    /// byte at which a line is bad. `into` is left as it was where no sample is given. A feed that answered otherwise than
    /// with a sample has nothing more to give.
    #[inline(always)]
    pub fn next<S: Shelf>(&mut self, shelf: &mut S, into: &mut [Num]) -> Got
        requires { length into.old ≡ length (widths_of self.old) }

        // Where the bytes of the file are told, and the feed has given its first samples.
        ensures told { (file : List ℕ) → Tells (S.view shelf.old).told (name_of self.old) file → StandsFor self.old file
            → GivesNext result self.old self.new into.new file }

        // Where they are not told too, they are bytes of some file, and the sample is that of every file that begins so.
        ensures seen { (bytes : List ℕ) → IsSeen (S.view shelf.old).told bytes self.old
            → ReadsOn (S.view shelf.old).told bytes self.old self.new
            (λ file. StandsFor self.old file → GivesNext result self.old self.new into.new file) }

        ensures given { given_of self.new ≡ given_of self.old + given_by result }
        ensures into { (is_sample result ≡ false) → into.new ≡ into.old }
        ensures file { SameFile self.old self.new }

        ensures cause { result ≡ Got.ReadFault
            → HasReadCause (S.view shelf.old).told (name_of self.old) (S.view shelf.old).faults
            (S.view shelf.new).faults }
        ensures missing { IsMissing (S.view shelf.old).told (name_of self.old) → reads_nothing self.old →
            result ≡ Got.ReadFault }
        ensures quiet { IsReady self.old → ((S.view shelf.new).faults ≡ (S.view shelf.old).faults)
            × (result ≢ Got.ReadFault) }

        // A read that fails is not tried again: it is answered with ReadFault.
        ensures steady { result ≢ Got.ReadFault → (S.view shelf.new).faults ≡ (S.view shelf.old).faults }
        ensures later { (S.view shelf.old).faults ≤ (S.view shelf.new).faults }

        ensures same { (S.view shelf.new).told ≡ (S.view shelf.old).told }
        ensures reached { (S.view shelf.old).reach (name_of self.old) ≡ Some (place_of self.old)
            → (S.view shelf.new).reach (name_of self.old) ≡ Some (place_of self.new) }
        ensures others { (q : List ℕ) → q ≢ name_of self.old → (S.view shelf.new).reach q ≡ (S.view shelf.old).reach q }
    {
        if self.take_front() {
            return self.give_front(into);
        }
        self.next_line(shelf, into)
    }

    /// Reads on to the end of the file, or past the limit of bytes: whether the file has more bytes than that.
    ///
    /// The lines that it reads are given no more.
    pub fn is_too_long<S: Shelf>(&mut self, shelf: &mut S) -> Result<bool, Failed>
        ensures seen { (bytes : List ℕ) → IsSeen (S.view shelf.old).told bytes self.old
            → ReadsOn (S.view shelf.old).told bytes self.old self.new
            (λ file. IfOk result (λ long. long ≡ nat_lt (limit_of self.old) (length file))) }
        ensures file { SameFile self.old self.new }
        ensures cause { OnErr result (HasReadCause (S.view shelf.old).told (name_of self.old) (S.view shelf.old).faults
            (S.view shelf.new).faults) }
        ensures steady { OnOk result ((S.view shelf.new).faults ≡ (S.view shelf.old).faults) }
        ensures later { (S.view shelf.old).faults ≤ (S.view shelf.new).faults }
        ensures same { (S.view shelf.new).told ≡ (S.view shelf.old).told }
        ensures reached { (S.view shelf.old).reach (name_of self.old) ≡ Some (place_of self.old)
            → (S.view shelf.new).reach (name_of self.old) ≡ Some (place_of self.new) }
        ensures others { (q : List ℕ) → q ≢ name_of self.old → (S.view shelf.new).reach q ≡ (S.view shelf.old).reach q }
    {
        self.start = self.end;
        while self.tail.is_open() {
            let count = shelf.read_at(self.name.as_str(), self.place, &mut self.buffer)?;
            self.advance(count);
            self.start = self.end;
        }
        Ok(self.place > self.limit)
    }
}

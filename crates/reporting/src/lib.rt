// A report as a run over its input: fed piece after piece, and finished.
//
// The job says what is told of each record; a report may begin with a line that asks for an edition. The
// contracts cite specs/Run.antt, where the run is told byte by byte; that a run says the report of the
// whole input, in whatever pieces it was fed, is proved in proofs/Demand2Run.antt for every job at once.
#![tactic(auto)]

mod ends;
mod held;

ghost use Rattle.std.specs.Prelude.{◌≡◌, [], ◌++◌, ◌+◌, ◌<◌, ◌≤◌, length, take};
ghost use Rattle.wording.specs.Puts.{HasRoom, Adds};
ghost use Rattle.report_lines.specs.Says.{line_most, record_most, Says};
ghost use Rattle.reporting.specs.Report.{said_for, refused_for, asked_by};
ghost use Rattle.reporting.specs.Run.{start, last_words, rest_said, end_of, has_refused, held_most};
ghost use Rattle.reporting.specs.FeedClauses.{view, seen, Tells, Takes, Feeds, Finishes};

use ends::line_end;
use held::Held;
use layout::{Edition, LONGEST};
use wording::Sheet;

// What is told of each record.
#[derive(Clone, Copy)]
pub enum Job {
    // what the check answers
    Check,
    // what the record holds, and whether writing that gives it back
    Readings,
    // what recasting it to this edition loses
    Recast(Edition),
}

// What the lines so far have led to.
#[derive(Clone, Copy)]
pub enum Stage {
    // the first line is still to end, which asks for an edition to recast to
    Asking,
    // it asked for none that is held: nothing more is said
    Closed,
    // each line is a record
    Telling(Job),
}

// The stage, and how many records were met and how many of them were refused.
#[derive(Clone, Copy)]
pub struct Ledger {
    pub stage: Stage,
    pub records: u64,
    pub refused: u64,
}

// How much is held of a line that has not ended: one byte more than any record has tells all.
pub const HELD: usize = LONGEST + 1;

// A run between two pieces of its input: the ledger, and the line that has not ended yet, as much of it as
// is held. A buffer and a length, and no type with an invariant: `feed` and `finish` take every such run.
#[derive(Clone, Copy)]
pub struct Run {
    pub ledger: Ledger,
    pub held: [u8; HELD],
    pub length: usize,
}

// A run as its lines are taken.
#[derive(Drop)]
struct Taking {
    ledger: Ledger,
    held: Held,
}

// What feeding a piece leads to, in three answers: the run after it, how many bytes of the piece were taken,
// and how many were written.
#[derive(Clone, Copy)]
pub struct Fed {
    pub run: Run,
    pub taken: usize,
    pub written: usize,
}

// What finishing a run leads to: how many bytes were written, and whether anything was refused. Both are
// answered, also where there was no room: the theorem `fed_report` speaks of each.
#[derive(Clone, Copy)]
pub struct Finished {
    pub written: usize,
    pub refused: bool,
}

// The room that whatever a report says of a record has in the buffer.
const RECORD_MOST: usize = 12288;

// The room that whatever is said at the end has in the buffer: what is said of a record, and the last line.
pub const CLOSING_MOST: usize = 12400;

// The run before the first byte.
pub fn start(stage: Stage) -> Run
    ensures { view result ≡ start stage }
{
    Run {
        ledger: Ledger {
            stage,
            records: 0,
            refused: 0,
        },
        held: [0; HELD],
        length: 0,
    }
}

// The edition that a first line asks for.
#[tactic(auto, using(crate::proofs::TellLaws::asks), unfolding(crate::specs::Report::asked_by))]
fn asked_by(line: &[u8]) -> Option<Edition>
    ensures { result ≡ asked_by line.now }
{
    match line {
        [digit] => Edition::of_digit(*digit),
        _ => None,
    }
}

// Says of a record what the job has to say of it, and answers whether the record is refused. The jobs are
// three and one is picked as the program runs: with a trait in place of the enum, this match would pick it.
fn tell(sheet: &mut Sheet<'_>, count: u64, line: &[u8], job: Job) -> bool
    requires { HasRoom record_most sheet.old }
    ensures { Says (said_for job count line.now) (refused_for job line.now) sheet.old sheet.new result }
{
    match job {
        Job::Check => check_lines::tell(sheet, count, line),
        Job::Readings => reading_lines::tell(sheet, count, line),
        Job::Recast(edition) => recast_lines::tell(sheet, count, line, edition),
    }
}

impl Ledger {
    // Takes a first line that asks: says what it asks for, and goes on to the stage that it leads to.
    fn take_first(&mut self, sheet: &mut Sheet<'_>, line: &[u8])
        requires asking { self.old.stage ≡ Stage.Asking }
        requires room { HasRoom record_most sheet.old }
        ensures { Tells self.old line.now sheet.old sheet.new self.new }
    {
        match asked_by(line) {
            Some(edition) => {
                recast_lines::put_heading(sheet, edition);
                self.stage = Stage::Telling(Job::Recast(edition));
            }
            None => {
                recast_lines::put_not_held(sheet);
                self.stage = Stage::Closed;
            }
        }
    }

    // Takes a record: says of it what the job has to say, and counts it. The last count has none after it.
    fn take_record(&mut self, sheet: &mut Sheet<'_>, line: &[u8], job: Job)
        requires telling { self.old.stage ≡ Stage.Telling job }
        requires room { HasRoom record_most sheet.old }
        ensures { Tells self.old line.now sheet.old sheet.new self.new }
    {
        let count = self.records.saturating_add(1);
        let is_refused = tell(sheet, count, line, job);
        self.records = count;
        self.refused = self.refused.saturating_add(u64::from(is_refused));
    }

    // Takes a line, by the stage that it finds.
    fn take_line(&mut self, sheet: &mut Sheet<'_>, line: &[u8])
        requires { HasRoom record_most sheet.old }
        ensures { Tells self.old line.now sheet.old sheet.new self.new }
    {
        match self.stage {
            Stage::Asking => self.take_first(sheet, line),
            Stage::Closed => {}
            Stage::Telling(job) => self.take_record(sheet, line, job),
        }
    }

    // Puts what is said last, by the stage.
    #[tactic(auto, using(crate::proofs::TellLaws::closed_last), unfolding(crate::specs::Run::last_words))]
    fn put_last(&self, sheet: &mut Sheet<'_>)
        requires { HasRoom line_most sheet.old }
        ensures { Adds (last_words self.now) line_most sheet.old sheet.new }
    {
        match self.stage {
            Stage::Asking => recast_lines::put_not_held(sheet),
            Stage::Closed => {}
            Stage::Telling(_) => report_lines::put_totals(sheet, self.records, self.refused),
        }
    }

    // Was anything refused? A first line that asks for no edition that is held is a refusal too.
    #[tactic(auto, unfolding(crate::specs::Run::has_refused))]
    fn has_refused(&self) -> bool
        ensures { result ≡ has_refused self.now }
    {
        match self.stage {
            Stage::Asking | Stage::Closed => true,
            Stage::Telling(_) => 0 < self.refused,
        }
    }
}

impl Taking {
    // Takes a run up, with as much of its line as its buffer has.
    fn of(run: Run) -> Taking
        ensures { seen result ≡ view run }
    {
        Taking {
            ledger: run.ledger,
            held: Held::of(run.held, run.length),
        }
    }

    // The run that it has come to.
    fn run(self) -> Run
        ensures { view result ≡ seen self }
    {
        let ledger = self.ledger;
        let (held, length) = self.held.parts();
        Run {
            ledger,
            held,
            length,
        }
    }

    // Takes the line that ends after these bytes, of which nothing is held then. A line that lies wholly in
    // the piece is taken as it lies there.
    fn take_ended(&mut self, sheet: &mut Sheet<'_>, bytes: &[u8])
        requires { HasRoom record_most sheet.old }
        ensures tells { Tells self.old.ledger (take held_most (self.old.held ++ bytes.now)) sheet.old sheet.new self.new.ledger }
        ensures ended { self.new.held ≡ [] }
        ensures short { length self.old.held ≤ held_most }
    {
        if self.held.is_empty() {
            return self.ledger.take_line(sheet, bytes);
        }
        self.held.hold(bytes);
        self.ledger.take_line(sheet, self.held.as_slice());
        self.held.clear();
    }

    // Takes a piece of the input from its front on, line after line. It stops early only where the sheet has
    // no room left for what may be said of a record, and answers how many bytes are taken. A turn takes a
    // line, which may have any length, so there is nothing to count.
    fn take(&mut self, sheet: &mut Sheet<'_>, piece: &[u8]) -> usize
        ensures takes { Takes (seen self.old) piece.now sheet.old self.new sheet.new result }
        ensures stops { result < length piece.now → length sheet.new.out.now < sheet.new.end + record_most }
    {
        let mut at = 0;
        while at < piece.len() {
            if sheet.out.len() - sheet.end < RECORD_MOST {
                break;
            }
            let end = line_end(piece, at);
            if end == piece.len() {
                self.held.hold(&piece[at..end]);
                at = end;
            } else {
                let next = end + 1;
                self.take_ended(sheet, &piece[at..end]);
                at = next;
            }
        }
        at
    }

    // Takes the line that has no end, if there is one.
    fn take_rest(&mut self, sheet: &mut Sheet<'_>)
        requires { HasRoom record_most sheet.old }
        ensures next { self.new.ledger ≡ end_of (seen self.old) }
        ensures said { Adds (rest_said (seen self.old)) record_most sheet.old sheet.new }
    {
        if !self.held.is_empty() {
            self.ledger.take_line(sheet, self.held.as_slice());
        }
    }
}

// Feeds a piece of the input to a run: line after line is taken, and what is said is written to the
// front of `out`. It stops early only where `out` has no room left for what may be said of a record.
pub fn feed(run: Run, piece: &[u8], out: &mut [u8]) -> Fed
    ensures { Feeds run piece.now out.old out.new result }
{
    let mut taking = Taking::of(run);
    let mut sheet = Sheet { out, end: 0 };
    let taken = taking.take(&mut sheet, piece);
    Fed {
        run: taking.run(),
        taken,
        written: sheet.end,
    }
}

// Finishes a run at the end of its input: tells the line that has no end, if there is one, and what is
// said last. Where `out` has fewer than `CLOSING_MOST` bytes nothing is written.
pub fn finish(run: Run, out: &mut [u8]) -> Finished
    ensures { Finishes run out.old out.new result }
{
    if out.len() < CLOSING_MOST {
        return Finished {
            written: 0,
            refused: true,
        };
    }
    let mut run = Taking::of(run);
    let mut sheet = Sheet { out, end: 0 };
    run.take_rest(&mut sheet);
    run.ledger.put_last(&mut sheet);
    Finished {
        written: sheet.end,
        refused: run.ledger.has_refused(),
    }
}

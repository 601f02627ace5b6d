use std::alloc::{AllocError, Global};
use std::process::Abort;
use std::test::*;
use x10_finish::{Book, Tally};
use x10_frame::Report;
use x10_kinds::Stop;
use x10_model::Finish;

const FINISH: Finish = Finish { home: 0, number: 1 };

fn report(
    alloc: Global,
    place: u16,
    sent: [u32; 3],
    received: [u32; 3],
) -> Result<Report, AllocError> {
    Ok(Report {
        place,
        number: 1,
        sent: Vec::from_slice(alloc, &sent)?,
        received: Vec::from_slice(alloc, &received)?,
    })
}

/// The reports of two places: the first sent nothing and received one, the second sent one to it, and then it received
/// that one too.
fn reports(alloc: Global) -> Result<[Report; 3], AllocError> {
    Ok([
        report(alloc, 1, [0, 0, 0], [1, 0, 0])?,
        report(alloc, 2, [0, 1, 0], [1, 0, 0])?,
        report(alloc, 1, [0, 0, 0], [1, 0, 1])?,
    ])
}

fn take(rt: &impl Abort, book: &mut Book, report: &Report) {
    let places = book.places();
    assert!(rt; report.place < places);
    assert!(rt; report.sent.len() == usize::from(places));
    assert!(rt; report.received.len() == usize::from(places));
    book.merge(report);
}

/// Whether a book balances, and whether its finish is done.
fn answers(book: &Book, tally: &Tally) -> (bool, bool) {
    (book.balanced(tally), book.done(tally))
}

/// What the home has counted where it has sent one activity to each of two places.
fn sender(alloc: Global) -> Result<Tally, Stop> {
    let mut tally = Tally::new(alloc, 0, 3);
    tally.spawned(FINISH, 1)?;
    tally.spawned(FINISH, 2)?;
    Ok(tally)
}

/// The book takes in some reports, in an order; whether it balances after each.
fn merged(
    rt: &impl Abort,
    tally: &Tally,
    book: &mut Book,
    reports: &[Report],
    order: &[usize],
    after: &mut Vec<bool>,
) -> Result<(), AllocError> {
    assert!(rt; answers(book, tally) == (false, false));
    for i in order {
        assert!(rt; *i < reports.len());
        take(rt, book, &reports[*i]);
        let (balanced, done) = answers(book, tally);
        assert!(rt; done == balanced && answers(book, tally) == (balanced, done));
        after.push(balanced)?;
    }
    Ok(())
}

/// Whether the home's book balances after each of some reports, in an order.
fn balances(rt: &impl Abort, alloc: Global, order: &[usize]) -> Result<Vec<bool>, Fail> {
    let tally = sender(alloc)?;
    let reports = reports(alloc)?;
    let mut book = Book::open(alloc, FINISH, 3)?;
    let mut after = Vec::new(alloc);
    merged(rt, &tally, &mut book, &reports, order, &mut after)?;
    book.close();
    Ok(after)
}

#[test]
fn reports_in_every_order(rt: HostRuntime) -> Result<(), Fail> {
    let alloc = rt.alloc();
    for (order, want) in [
        ([0, 1, 2], [false, false, true]),
        ([0, 2, 1], [false, false, true]),
        ([1, 0, 2], [false, false, true]),
        ([1, 2, 0], [false, true, true]),
        ([2, 0, 1], [false, false, true]),
        ([2, 1, 0], [false, true, true]),
    ] {
        let answers = balances(&rt, alloc, &order)?;
        assert!(rt; answers.as_slice() == want.as_slice());
    }
    Ok(())
}

#[test]
fn without_the_first_report(rt: HostRuntime) -> Result<(), Fail> {
    let answers = balances(&rt, rt.alloc(), &[1, 2])?;
    assert!(rt; answers.as_slice() == [false, true].as_slice());
    Ok(())
}

/// An activity under the finish ends.
fn end(rt: &impl Abort, tally: &mut Tally) -> Result<Option<Report>, Stop> {
    assert!(rt; tally.live(FINISH) > 0);
    tally.ended(FINISH)
}

/// How many activities live under the finish.
fn live(tally: &Tally) -> u32 {
    tally.live(FINISH)
}

/// Whether a report is that of a place, and has these counts.
fn is_report(report: &Report, place: u16, sent: &[u32], received: &[u32]) -> bool {
    report.place == place
        && report.number == 1
        && report.sent.as_slice() == sent
        && report.received.as_slice() == received
}

/// What place 2 has met: one activity came from place 0, one was begun, and one was sent to place 1.
fn busy(alloc: Global) -> Result<Tally, Stop> {
    let mut tally = Tally::new(alloc, 2, 3);
    tally.came(FINISH, 0)?;
    tally.began(FINISH)?;
    tally.spawned(FINISH, 1)?;
    Ok(tally)
}

#[test]
fn last_to_end_reports(rt: HostRuntime) -> Result<(), Fail> {
    let mut tally = busy(rt.alloc())?;
    assert!(rt; live(&tally) == 2 && ends_quietly(&rt, &mut tally));
    let report = end(&rt, &mut tally)?.ok_or("no report")?;
    assert!(rt; is_report(&report, 2, &[0, 1, 0], &[1, 0, 0]));
    assert!(rt; live(&tally) == 0);
    Ok(())
}

/// The home of the finish, with a book for it.
fn home(alloc: Global) -> Result<(Tally, Book), Stop> {
    Ok((Tally::new(alloc, 0, 3), Book::open(alloc, FINISH, 3)?))
}

/// The place of a tally, and how many places it counts.
fn place_of(tally: &Tally) -> (u16, u16) {
    (tally.place(), tally.places())
}

/// The finish of a book, and how many places it has numbers of.
fn finish_of(book: &Book) -> (Finish, u16) {
    (book.finish(), book.places())
}

/// An activity under the finish begins.
fn begin(tally: &mut Tally) -> Result<(), Stop> {
    tally.began(FINISH)
}

/// Whether an activity under the finish ends, and nothing is reported.
fn ends_quietly(rt: &impl Abort, tally: &mut Tally) -> bool {
    matches!(end(rt, tally), Ok(None))
}

#[test]
fn home_reports_nothing(rt: HostRuntime) -> Result<(), Fail> {
    let (mut tally, book) = home(rt.alloc())?;
    assert!(rt; answers(&book, &tally) == (true, true));
    begin(&mut tally)?;
    assert!(rt; answers(&book, &tally) == (true, false));
    assert!(rt; ends_quietly(&rt, &mut tally));
    assert!(rt; answers(&book, &tally) == (true, true));
    assert!(rt; place_of(&tally) == (0, 3) && finish_of(&book) == (FINISH, 3));
    Ok(())
}

/// Finishes that a place has met, in no particular order.
const MET: &[Finish] = &[
    Finish { home: 3, number: 0 },
    Finish { home: 0, number: 7 },
    Finish { home: 1, number: 2 },
    Finish { home: 0, number: 6 },
    Finish { home: 1, number: 3 },
    Finish {
        home: 2,
        number: 4_294_967_295,
    },
];

/// How many live under a finish, and how many numbers are kept of what was sent and received.
fn counted(tally: &Tally, finish: Finish) -> (u32, usize, usize) {
    (
        tally.live(finish),
        tally.sent(finish).len(),
        tally.received(finish).len(),
    )
}

/// The finishes as a slice.
fn met() -> &'static [Finish] {
    MET
}

/// Place 1 of four, which has met the finishes.
fn meeting(alloc: Global, rt: &impl Abort) -> Result<Tally, Stop> {
    let mut tally = Tally::new(alloc, 1, 4);
    for finish in met() {
        tally.meet(*finish)?;
        assert!(rt; counted(&tally, *finish) == (0, 4, 4));
    }
    Ok(tally)
}

/// Whether one activity lives under a finish, and none under the others that were met.
fn lives_alone(tally: &Tally, begun: Finish) -> bool {
    for finish in met() {
        let live = u32::from(*finish == begun);
        if counted(tally, *finish) != (live, 4, 4) {
            return false;
        }
    }
    true
}

#[test]
fn finishes_are_counted_apart(rt: HostRuntime) -> Result<(), Fail> {
    let mut tally = meeting(rt.alloc(), &rt)?;
    let begun = Finish { home: 1, number: 2 };
    tally.began(begun)?;
    assert!(rt; lives_alone(&tally, begun));
    assert!(rt; counted(&tally, Finish { home: 0, number: 8 }) == (0, 0, 0));
    Ok(())
}

/// Whether a call went through; a refused growth is the only other answer that it may give.
fn went(rt: &impl Abort, answer: Result<(), Stop>) -> bool {
    match answer {
        Ok(()) => true,
        Err(stop) => {
            assert!(rt; stop == Stop::Memory);
            false
        }
    }
}

/// Whether the finish is met, an activity begun, or one came from place 0.
fn meets(rt: &impl Abort, tally: &mut Tally) -> bool {
    went(rt, tally.meet(FINISH))
}

fn begins(rt: &impl Abort, tally: &mut Tally) -> bool {
    went(rt, tally.began(FINISH))
}

fn comes(rt: &impl Abort, tally: &mut Tally) -> bool {
    assert!(rt; 0 < tally.places());
    went(rt, tally.came(FINISH, 0))
}

/// How many came from place 0 under the finish.
fn came(tally: &Tally) -> u32 {
    tally.received(FINISH).first().copied().unwrap_or(0)
}

/// How many numbers are kept of what was sent under the finish.
fn kept(tally: &Tally) -> usize {
    tally.sent(FINISH).len()
}

/// An activity is begun and one comes, each one or none: how many live.
fn filled(rt: &impl Abort, tally: &mut Tally) -> u32 {
    let met = meets(rt, tally);
    assert!(rt; kept(tally) == if met { 3 } else { 0 });
    let begun = u32::from(begins(rt, tally));
    assert!(rt; live(tally) == begun);
    let new = u32::from(comes(rt, tally));
    assert!(rt; live(tally) == begun.saturating_add(new) && came(tally) == new);
    begun.saturating_add(new)
}

/// One of `living` activities ends, or all live on where the report of the last was refused.
fn one_ends(rt: &impl Abort, tally: &mut Tally, living: u32) {
    let ended = end(rt, tally).is_ok();
    assert!(rt; ended || living == 1);
    let left = if ended {
        living.saturating_sub(1)
    } else {
        living
    };
    assert!(rt; live(tally) == left);
}

/// Whether a book is opened that balances, or is refused for lack of memory.
fn opens(alloc: Global) -> bool {
    match Book::open(alloc, FINISH, 3) {
        Ok(book) => book.balanced(&Tally::new(alloc, 0, 3)),
        Err(stop) => stop == Stop::Memory,
    }
}

/// The finish after the first.
const NEXT: Finish = Finish { home: 0, number: 2 };

/// The finish ends, and the next one takes its counts, of which nothing is left.
fn counts_again(rt: &impl Abort, tally: &mut Tally) -> Result<(), Stop> {
    tally.began(FINISH)?;
    assert!(rt; 2 < tally.places());
    tally.came(FINISH, 2)?;
    tally.forget(FINISH);
    tally.meet(NEXT)?;
    assert!(rt; tally.totals(NEXT).0 == 0 && tally.totals(FINISH).1.is_empty());
    assert!(rt; tally.sent(NEXT) == [0, 0, 0].as_slice());
    assert!(rt; tally.received(NEXT) == [0, 0, 0].as_slice());
    Ok(())
}

/// A finish that ended leaves nothing behind in the counts that the next one takes.
#[test]
fn counts_are_used_again(rt: HostRuntime) -> Result<(), Fail> {
    let mut tally = sender(rt.alloc())?;
    counts_again(&rt, &mut tally)?;
    Ok(())
}

/// Whether a book balances, and whether its finish is done, where nothing was counted at the home.
fn untouched(alloc: Global, book: &Book, places: u16) -> (bool, bool) {
    answers(book, &Tally::new(alloc, 0, places))
}

/// A book that doesn't balance by one report is opened again, for the next finish.
fn opens_again(
    rt: &impl Abort,
    alloc: Global,
    book: &mut Book,
    report: &Report,
    places: u16,
) -> Result<(), Stop> {
    take(rt, book, report);
    assert!(rt; book.places() == 3 && untouched(alloc, book, 3) == (false, false));
    assert!(rt; NEXT.home < places);
    book.reopen(NEXT, places)?;
    assert!(rt; finish_of(book) == (NEXT, places));
    assert!(rt; untouched(alloc, book, places) == (true, true));
    Ok(())
}

/// A finish that ended leaves nothing behind in the book that the next one takes. Nor where that is a finish of fewer or more
/// places.
#[test]
fn a_book_is_used_again(rt: HostRuntime) -> Result<(), Fail> {
    let report = report(rt.alloc(), 1, [0, 0, 1], [0, 0, 0])?;
    for places in [1, 3, 5] {
        let mut book = Book::open(rt.alloc(), FINISH, 3)?;
        opens_again(&rt, rt.alloc(), &mut book, &report, places)?;
    }
    Ok(())
}

/// Every answer is right, or it is that a growth was refused and nothing has changed. It can be run with one request refused, by
/// `rt try --test --fail-alloc N`.
#[test]
fn refused_growth_changes_nothing(rt: HostRuntime) {
    let mut tally = Tally::new(rt.alloc(), 1, 3);
    let living = filled(&rt, &mut tally);
    if living > 0 {
        one_ends(&rt, &mut tally, living);
    }
    assert!(rt; opens(rt.alloc()));
}

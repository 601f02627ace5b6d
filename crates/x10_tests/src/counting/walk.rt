//! A walk of many random events at five places, next to a plain count of everything.

use std::alloc::Global;
use std::process::Abort;
use std::test::*;
use x10_finish::{Book, Tally};
use x10_frame::Report;
use x10_model::Finish;
use x10_samples::random;

const FINISH: Finish = Finish { home: 2, number: 9 };

/// The number of the finish's home among the places.
const HOME: usize = 2;

/// What is counted plainly: what lives, what was sent, received and is in flight, and the largest numbers reported.
#[derive(Drop)]
struct Plain {
    live: [u32; 5],
    sent: [[u32; 5]; 5],
    received: [[u32; 5]; 5],
    flying: [[u32; 5]; 5],
    told_sent: [[u32; 5]; 5],
    told_received: [[u32; 5]; 5],
}

fn at(rows: &[[u32; 5]; 5], p: usize, q: usize) -> u32 {
    let row = rows[p % 5];
    row[q % 5]
}

/// What a place has counted of another: sent there, and received from there.
fn counted(tally: &Tally, q: usize) -> (u32, u32) {
    (
        tally.sent(FINISH).get(q).copied().unwrap_or(0),
        tally.received(FINISH).get(q).copied().unwrap_or(0),
    )
}

fn add(rows: &mut [[u32; 5]; 5], p: usize, q: usize, more: bool) {
    let row = &mut rows[p % 5];
    let n = row[q % 5];
    row[q % 5] = if more {
        n.saturating_add(1)
    } else {
        n.saturating_sub(1)
    };
}

fn tell(rows: &mut [[u32; 5]; 5], p: usize, numbers: &[u32]) {
    let row = &mut rows[p % 5];
    for (q, n) in numbers.iter().enumerate() {
        row[q % 5] = row[q % 5].max(*n);
    }
}

impl Plain {
    fn new() -> Plain {
        let none = [[0; 5]; 5];
        Plain {
            live: [0; 5],
            sent: none,
            received: none,
            flying: none,
            told_sent: none,
            told_received: none,
        }
    }

    /// What the home sees of one pair.
    fn agrees(&self, p: usize, q: usize) -> bool {
        let sent = if p == HOME {
            at(&self.sent, p, q)
        } else {
            at(&self.told_sent, p, q)
        };
        let received = if q == HOME {
            at(&self.received, q, p)
        } else {
            at(&self.told_received, q, p)
        };
        sent == received
    }

    fn balances(&self) -> bool {
        (0..25usize).all(|i| self.agrees(i / 5, i % 5))
    }

    /// Whether a report is what a place has to report.
    fn tells(&self, p: usize, report: &Report) -> bool {
        usize::from(report.place) == p
            && report.number == FINISH.number
            && report.sent.as_slice() == self.sent[p % 5].as_slice()
            && report.received.as_slice() == self.received[p % 5].as_slice()
    }

    /// Nothing lives and nothing is in flight.
    fn is_quiet(&self) -> bool {
        self.live.iter().all(|n| *n == 0)
            && (0..25usize).all(|i| at(&self.flying, i / 5, i % 5) == 0)
    }
}

#[derive(Drop)]
struct Walk {
    seed: u64,
    tallies: [Tally; 5],
    book: Book,
    reports: Vec<Report>,
    plain: Plain,
}

impl Walk {
    fn new(alloc: Global) -> Result<Walk, Fail> {
        Ok(Walk {
            seed: 1,
            tallies: [
                Tally::new(alloc, 0, 5),
                Tally::new(alloc, 1, 5),
                Tally::new(alloc, 2, 5),
                Tally::new(alloc, 3, 5),
                Tally::new(alloc, 4, 5),
            ],
            book: Book::open(alloc, FINISH, 5)?,
            reports: Vec::new(alloc),
            plain: Plain::new(),
        })
    }

    fn put_out(&mut self, rt: &impl Abort, p: usize, q: usize) -> Result<(), Fail> {
        let tally = &mut self.tallies[p % 5];
        let to = (q % 5) as u16;
        assert!(rt; to < tally.places());
        tally.spawned(FINISH, to)?;
        add(&mut self.plain.sent, p, q, true);
        add(&mut self.plain.flying, p, q, true);
        Ok(())
    }

    fn begin(&mut self, p: usize) -> Result<(), Fail> {
        self.tallies[p % 5].began(FINISH)?;
        self.plain.live[p % 5] = self.plain.live[p % 5].saturating_add(1);
        Ok(())
    }

    fn arrive(&mut self, rt: &impl Abort, p: usize, q: usize) -> Result<(), Fail> {
        let tally = &mut self.tallies[q % 5];
        let from = (p % 5) as u16;
        assert!(rt; from < tally.places());
        tally.came(FINISH, from)?;
        add(&mut self.plain.flying, p, q, false);
        add(&mut self.plain.received, q, p, true);
        self.plain.live[q % 5] = self.plain.live[q % 5].saturating_add(1);
        Ok(())
    }

    fn end(&mut self, rt: &impl Abort, p: usize) -> Result<(), Fail> {
        let tally = &mut self.tallies[p % 5];
        assert!(rt; tally.live(FINISH) > 0);
        let report = tally.ended(FINISH)?;
        let live = self.plain.live[p % 5].saturating_sub(1);
        self.plain.live[p % 5] = live;
        assert!(rt; report.is_some() == (live == 0 && p % 5 != HOME));
        if let Some(report) = report {
            assert!(rt; self.plain.tells(p % 5, &report));
            self.reports.push(report)?;
        }
        Ok(())
    }

    /// The i-th report in flight is taken in, and again later where it stays.
    fn take(&mut self, rt: &impl Abort, i: usize, stays: bool) {
        assert!(rt; i < self.reports.len());
        let report = &self.reports[i];
        let places = self.book.places();
        assert!(rt; report.place < places);
        assert!(rt; report.sent.len() == usize::from(places));
        assert!(rt; report.received.len() == usize::from(places));
        self.book.merge(report);
        tell(
            &mut self.plain.told_sent,
            usize::from(report.place),
            &report.sent,
        );
        tell(
            &mut self.plain.told_received,
            usize::from(report.place),
            &report.received,
        );
        if !stays {
            self.reports.swap_remove(i);
        }
    }

    fn compare_counts(&self, rt: &impl Abort, p: usize) {
        let tally = &self.tallies[p % 5];
        assert!(rt; tally.live(FINISH) == self.plain.live[p % 5]);
        for q in 0..5usize {
            let counts = (at(&self.plain.sent, p, q), at(&self.plain.received, p, q));
            assert_eq!(rt; counted(tally, q), counts);
        }
    }

    /// Whether the finish is done, after each answer was compared with the plain count.
    fn compare(&self, rt: &impl Abort) -> bool {
        for p in 0..5usize {
            self.compare_counts(rt, p);
        }
        let (home, balances) = (&self.tallies[HOME], self.plain.balances());
        assert_eq!(rt; self.book.balanced(home), balances);
        let done = self.book.done(home);
        assert_eq!(rt; done, balances && self.plain.live[HOME] == 0);
        let quiet = self.plain.is_quiet();
        assert!(rt; quiet || !done);
        assert!(rt; done || !quiet || !self.reports.is_empty());
        done
    }

    /// One random event that can happen; `busy` says how readily activities are made.
    fn event(&mut self, rt: &impl Abort, busy: usize) -> Result<(), Fail> {
        let (p, q, kind) = (
            random(&mut self.seed) % 5,
            random(&mut self.seed) % 5,
            random(&mut self.seed) % 16,
        );
        let works = self.plain.live[p] > 0 || p == HOME;
        if works && kind < busy {
            return self.put_out(rt, p, q);
        }
        if works && kind == busy {
            return self.begin(p);
        }
        if kind < 8 && at(&self.plain.flying, p, q) > 0 {
            return self.arrive(rt, p, q);
        }
        if kind < 13 && self.plain.live[p] > 0 {
            return self.end(rt, p);
        }
        if self.reports.is_empty() {
            return Ok(());
        }
        let i = random(&mut self.seed) % self.reports.len();
        self.take(rt, i, kind == 15);
        Ok(())
    }
}

#[test]
fn ten_thousand_events(rt: HostRuntime) -> Result<(), Fail> {
    let mut walk = Walk::new(rt.alloc())?;
    let mut done = 0u32;
    for i in 0..10_000usize {
        let busy = if i / 100 % 3 == 0 { 4 } else { 0 };
        walk.event(&rt, busy)?;
        if walk.compare(&rt) {
            done = done.saturating_add(1);
        }
    }
    assert!(rt; done > 100 && done < 9_000, "done {done} times");
    Ok(())
}

//! Counts of a finish of this place come from another one.
ghost use Rattle.std.specs.Prelude.{◌≡◌, ◌<◌, ◌≤◌, IfErr, OnOk, length, take};
ghost use Rattle.x10_frame.specs.Heads.{sent_of, received_of};
ghost use Rattle.x10_place.specs.Arrivals.{Merges, IsReportRefused};
ghost use Rattle.x10_place.specs.Receiving.{report_of};

use crate::store::Store;
use x10_copy::Refusal;
use x10_frame::FrameView;

/// How many activities a report says were sent to each place, followed by numbers that mean nothing.
fn sent(view: &FrameView) -> [u32; 64]
    requires { length (sent_of view.now) ≤ 64 }
    ensures { take (length (sent_of view.now)) result ≡ sent_of view.now }
{
    let mut counts = [0; 64];
    for place in 0..view.counts() {
        counts[place] = view.sent(place);
    }
    counts
}

/// How many it says were received from each, followed by numbers that mean nothing.
fn received(view: &FrameView) -> [u32; 64]
    requires { length (received_of view.now) ≤ 64 }
    ensures { take (length (received_of view.now)) result ≡ received_of view.now }
{
    let mut counts = [0; 64];
    for place in 0..view.counts() {
        counts[place] = view.received(place);
    }
    counts
}

/// The book of a finish takes in what a report says. A report of a finish that was closed says nothing new. Where it is
/// refused, nothing has changed.
pub(crate) fn take_report(
    store: &mut Store,
    view: &FrameView,
    from: u16,
    number: u32,
) -> Result<(), Refusal>
    requires from { from < store.old.places }
    requires few { store.old.places ≤ 64 }
    requires sent { length (sent_of view.now) ≡ store.old.places }
    requires received { length (received_of view.now) ≡ store.old.places }
    ensures ok { OnOk result ((number < store.old.opened)
        × Merges store.old (report_of from number (sent_of view.now) (received_of view.now))
        store.new) }
    ensures err { IfErr result (λ why. (store.new ≡ store.old)
        × IsReportRefused store.old number why) }
{
    if !store.was_opened(number) {
        return Err(Refusal::Finish);
    }
    if !store.has_book(number) {
        return Ok(());
    }
    let count = view.counts();
    let (sent, received) = (sent(view), received(view));
    store.merge(from, number, &sent[..count], &received[..count]);
    Ok(())
}

//! Laws of every run of a world.
ghost use Rattle.world.specs.Headline.{HeadlineOfRuns};
ghost use Rattle.world.specs.InOrder.{InOrderOfRuns};

/// The headline. Over every list of steps, chosen failures, stops and openings, from a disk alone
/// on: each opening that succeeds gives every guest the partition after a prefix of its accepted
/// requests, which holds every need of every reply that was published in any life; and at each
/// moment of an open world a guest has the partition after its accepted requests.
pub fn headline()
    ensures { HeadlineOfRuns }
{}

/// With IN_ORDER, over every list of events: at each moment the replies that were published of a
/// queue that is ready are those of its first pops, in the order of the pops; and so they stay once
/// the queue is gone.
pub fn replies_in_order()
    ensures { InOrderOfRuns }
{}

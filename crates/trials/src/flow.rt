// The least that has to be bought, by the largest flow of heat from hot streams to cold ones, in the streams' own temperatures.
//
// A source gives each hot degree what the streams have there, and each cold degree gives a sink what they want there. Between a hot degree and a cold one any amount may pass
// if the first lies at least the gap above the second. The flow grows by plain search for a path on which more can pass, as long as there is one.
ghost use Rattle.std.specs.Prelude.{◌<◌};

use crate::lists::{Kind, List, Stream};
use crate::trouble::Trouble;
use std::alloc::{AllocError, Global};
use std::collections::VecDeque;
use std::iter::successors;

// So many degrees of hot streams, and so many of cold ones, can be looked at.
const WIDTH: usize = 40;

const SOURCE: Node = Node { number: 2 * WIDTH };

const SINK: Node = Node {
    number: 2 * WIDTH + 1,
};

const NODES: usize = 2 * WIDTH + 2;

// More than all streams together give.
const ANY_AMOUNT: u64 = 1 << 60;

// More paths than a search for shortest ones can take.
const MOST_PATHS: usize = 1_000_000;

// Hot degrees, counted from the lowest, then cold ones, the source and the sink: numbers, since they are the rows and columns of a square.
#[derive(Clone, Copy, PartialEq, Eq)]
struct Node {
    number: usize,
    ghost there: { number < 82 },
}

// A step of a path, from a node to a node.
#[derive(Clone, Copy)]
struct Step {
    from: Node,
    to: Node,
}

// How much more can pass from node to node.
#[derive(Clone, Copy)]
struct Net {
    left: [[u64; NODES]; NODES],
}

// From which node each node was reached, of those that can be reached from the source.
#[derive(Drop)]
struct Reached {
    before: [Option<Node>; NODES],
}

// The lowest temperature of the streams of one kind, if all of them lie within the degrees that can be looked at.
fn base(streams: &[Stream], kind: Kind) -> Option<u32> {
    let lows = streams.iter().filter(|s| s.kind == kind).map(|s| s.low);
    let highs = streams.iter().filter(|s| s.kind == kind).map(|s| s.high);
    // where there are none, any temperature will do
    let low = lows.min().unwrap_or(0);
    let high = highs.max().unwrap_or(0);
    (high.saturating_sub(low) as usize <= WIDTH).then_some(low)
}

// What the streams of one kind give or want in the degree that begins at a temperature.
fn heat_at(streams: &[Stream], kind: Kind, degree: u32) -> u64 {
    streams
        .iter()
        .filter(|s| s.kind == kind && s.low <= degree && degree < s.high)
        // no `sum`, which asks for a bound
        .fold(0u64, |heat, s| heat.saturating_add(u64::from(s.rate)))
}

impl Net {
    // Lets any amount pass from a hot degree to each cold one that lies the gap below it or lower. Number, temperature, base and gap one by one: this is
    // the only place where they come together.
    fn join(&mut self, hot: usize, hot_degree: u32, cold_base: u32, gap: u32)
        requires { hot < 40 }
    {
        for (i, left) in self.left[hot][WIDTH..SOURCE.number].iter_mut().enumerate() {
            let cold_degree = cold_base.saturating_add(i as u32);
            if hot_degree >= cold_degree.saturating_add(gap) {
                *left = ANY_AMOUNT;
            }
        }
    }

    // What can pass at first, and what is wanted in all; nothing where the streams are too wide for it.
    fn of(list: &List) -> Option<(Net, u64)> {
        let streams = list.streams.as_slice();
        let hot_base = base(streams, Kind::Hot)?;
        let cold_base = base(streams, Kind::Cold)?;
        let mut net = Net {
            left: [[0; NODES]; NODES],
        };
        let mut wanted: u64 = 0;
        // By number, since a hot and a cold degree of one number stand in different rows.
        for i in 0..WIDTH {
            let hot_degree = hot_base.saturating_add(i as u32);
            let cold_heat = heat_at(streams, Kind::Cold, cold_base.saturating_add(i as u32));
            net.left[SOURCE.number][i] = heat_at(streams, Kind::Hot, hot_degree);
            net.left[WIDTH + i][SINK.number] = cold_heat;
            net.join(i, hot_degree, cold_base, list.gap);
            wanted = wanted.saturating_add(cold_heat);
        }
        Some((net, wanted))
    }

    // Reaches on from a node.
    fn reach_from(
        &self,
        from: Node,
        reached: &mut Reached,
        next: &mut VecDeque<Node>,
    ) -> Result<(), AllocError> {
        for (number, left) in self.left[from.number].iter().enumerate() {
            let to = Node { number };
            if *left > 0 && to != SOURCE && reached.before[number].is_none() {
                reached.before[number] = Some(from);
                next.push_back(to)?;
            }
        }
        Ok(())
    }

    // All that can be reached from the source, the nearest first.
    fn reach(&self, heap: Global) -> Result<Reached, AllocError> {
        let mut reached = Reached {
            before: [None; NODES],
        };
        let mut next = VecDeque::new(heap);
        next.push_back(SOURCE)?;
        // counted, so that it ends: no node is reached twice
        for _ in 0..NODES {
            let Some(node) = next.pop_front() else {
                break;
            };
            self.reach_from(node, &mut reached, &mut next)?;
        }
        Ok(reached)
    }

    // What more can pass on a path, unless it has no steps.
    fn narrowest(&self, path: &[Step]) -> Option<u64> {
        path.iter()
            .map(|step| self.left[step.from.number][step.to.number])
            .min()
    }

    // Passes so much more on a path; a later one may take it back.
    fn pass(&mut self, path: &[Step], amount: u64) {
        for Step { from, to } in path {
            let there = &mut self.left[from.number][to.number];
            *there = there.saturating_sub(amount);
            let back = &mut self.left[to.number][from.number];
            *back = back.saturating_add(amount);
        }
    }
}

impl Reached {
    // The step by which a node was reached.
    fn step_to(&self, to: Node) -> Option<Step> {
        self.before[to.number].map(|from| Step { from, to })
    }

    // The steps of the path from the source to the sink, the last first; none if there is no path.
    fn path(&self, heap: Global) -> Result<Vec<Step>, AllocError> {
        successors(self.step_to(SINK), |step| self.step_to(step.from))
            .take(NODES)
            .collect(heap)
    }
}

// What no flow from hot streams can serve, so that it has to be bought; nothing where the streams are too wide for a search.
pub fn least_bought(heap: Global, list: &List) -> Result<Option<u64>, Trouble> {
    let Some((mut net, mut wanted)) = Net::of(list) else {
        return Ok(None);
    };
    for _ in 0..MOST_PATHS {
        let path = net.reach(heap)?.path(heap)?;
        let Some(amount) = net.narrowest(path.as_slice()) else {
            return Ok(Some(wanted));
        };
        net.pass(path.as_slice(), amount);
        wanted = wanted.saturating_sub(amount);
    }
    Err(Trouble::Wrong("the search for paths does not end"))
}

//! The parts of a graph, that is, its strongly connected components, found by Gabow's path-based search (2000).

ghost use Rattle.std.specs.Prelude.{◌≡◌, ◌<◌, ◌≤◌, ◌+◌, ◌^◌, ◌↔◌, ℕ, [], length, IfOk, OnOk, IfSome, IfNone, IsTrue, All, map, false, slice_index_or};
ghost use Rattle.rl_graph.specs.Paths.{Has, Reaches, OnCycle};
ghost use Rattle.rl_graph.specs.Parts.{number_of, cycle_of, IsParts};
ghost use Rattle.rl_graph.specs.internal.InnerMoves.{HasInner, HasInnerOn, IsNumbered, AreInner, AreShared};
ghost use Rattle.rl_graph.specs.internal.Search.{search_state_of, start_of, opened, place_of, part_in, unseen, with_top, IsSearch, IsCut, IsClosed, IsFinished, IsListed, IsAllDone, IsUnseenMove, IsPast, IsMet, IsKept, StaysSeen, IsVisited, closed_alone, work_of};
ghost use Rattle.rl_graph.specs.declared.parts.SearchPlace.TheVariants.{Unseen, Done};

use crate::moves::NextStates;
use rl_lists::OutOfMemory;
use std::alloc::Global;
use std::marker::Model;

/// How far the search has come with a state.
#[derive(Clone, Copy)]
enum SearchPlace {
    /// Not met yet.
    Unseen,
    /// On the stack of open states, at this index from 0, which is its depth.
    Open(u64),
    /// In the part with this number.
    Done(u64),
}

/// An open state with its depth, and the letter and the number of its next move to look at.
#[derive(Clone, Copy)]
struct Frame {
    state: u64,
    depth: u64,
    letter: u32,
    number: u64,
}

/// The state of the search: how far it has come with each state, the stack of open states, the depths at which the
/// groups of the stack begin (`marks`), the open states that still have moves to look at (`frames`), and the number of
/// finished parts. The states of a group reach one another.
#[derive(Drop)]
struct PartSearch {
    places: Vec<SearchPlace>,
    open_states: Vec<u64>,
    marks: Vec<u64>,
    frames: Vec<Frame>,
    parts: u64,
}

impl PartSearch {
    /// Returns a search over `count` states, all of which are unseen.
    fn new(alloc: Global, count: u64) -> Result<PartSearch, OutOfMemory>
        ensures { IfOk result (λ s. search_state_of s ≡ start_of count) }
    {
        let places = vec![in alloc; SearchPlace::Unseen; count as usize]?;
        Ok(PartSearch {
            places,
            open_states: Vec::new(alloc),
            marks: Vec::new(alloc),
            frames: Vec::new(alloc),
            parts: 0,
        })
    }

    /// Pushes a state onto the stack, as a group of its own, with a frame that begins with its first move.
    fn open(&mut self, state: u64) -> Result<(), OutOfMemory>
        requires { state < length (search_state_of self.old).places }
        ensures { OnOk result (search_state_of self.new ≡ opened (search_state_of self.old) state) }
    {
        let depth = self.open_states.len() as u64;
        self.open_states.push(state)?;
        self.marks.push(depth)?;
        self.frames.push(Frame {
            state,
            depth,
            letter: 0,
            number: 0,
        })?;
        self.places[state as usize] = SearchPlace::Open(depth);
        Ok(())
    }

    /// Removes the open states at the depth `from` and above from the stack, and makes them the next part.
    fn close(&mut self, from: u64)
        requires listed { IsListed (search_state_of self.old) }
        requires within { from ≤ length (search_state_of self.old).open_states }
        requires room { (search_state_of self.old).parts < 2 ^ 63 }
        ensures { IsClosed from (search_state_of self.old) (search_state_of self.new) }
    {
        let part = self.parts;
        for depth in from as usize..self.open_states.len() {
            let state = self.open_states[depth];
            self.places[state as usize] = SearchPlace::Done(part);
        }
        self.open_states.truncate(from as usize);
        self.parts += 1;
    }

    /// Finishes the open state at `depth`, which has no moves left to look at. If the last group begins with this
    /// state, the group becomes the next part; otherwise nothing changes.
    fn finish(&mut self, depth: u64)
        requires listed { IsListed (search_state_of self.old) }
        requires within { depth ≤ length (search_state_of self.old).open_states }
        requires room { (search_state_of self.old).parts < 2 ^ 63 }
        ensures { IsFinished depth (search_state_of self.old) (search_state_of self.new) }
    {
        if self.marks.last().copied() == Some(depth) {
            self.marks.pop();
            self.close(depth);
        }
    }

    /// Returns whether the state `target` is unseen. If it is open, all later groups are joined to its group.
    fn meet(&mut self, target: u64) -> bool
        requires { target < length (search_state_of self.old).places }
        ensures { IsMet target (search_state_of self.old) (search_state_of self.new) result }
    {
        match self.places[target as usize] {
            SearchPlace::Unseen => true,
            SearchPlace::Open(depth) => {
                cut(&mut self.marks, depth);
                false
            }
            SearchPlace::Done(_) => false,
        }
    }

    /// Looks at the moves of the frame's state on the frame's letter, from the frame's next move up to the first one to
    /// an unseen state, and returns that state, or `None` if there is no such move. A move to an open state joins all
    /// later groups to that state's group.
    fn scan<M: NextStates>(&mut self, m: &M, frame: &mut Frame) -> Option<u64>
        requires letter_in { frame.old.letter < M.width m.now }
        requires search { IsSearch (M.next m.now) (M.size m.now) (with_top (search_state_of self.old) frame.old) }
        ensures search { IsSearch (M.next m.now) (M.size m.now) (with_top (search_state_of self.new) frame.new) }
        ensures kept { IsKept (search_state_of self.old) (search_state_of self.new) }
        ensures state { frame.new.state ≡ frame.old.state }
        ensures letter { frame.new.letter ≡ frame.old.letter }
        ensures found { IfSome result (λ w. IsUnseenMove (M.next m.now) (M.size m.now) (search_state_of self.new) frame.new w) }
        ensures end { IfNone result (length (M.next m.now frame.new.state frame.new.letter) ≤ frame.new.number) }
    {
        // Reading the number of states tells the prover that it fits in 64 bits, and that all moves lead to states.
        let _states = m.states();
        let count = m.count(frame.state, frame.letter);
        while frame.number < count {
            let target = m.target(frame.state, frame.letter, frame.number);
            if self.meet(target) {
                return Some(target);
            }
            frame.number += 1;
        }
        None
    }

    /// Looks at the moves of the frame's state, from the frame's next move up to the first one to an unseen state, and
    /// returns that state, or `None` if there is no such move. A move to an open state joins all later groups to that
    /// state's group.
    fn advance<M: NextStates>(&mut self, m: &M, frame: &mut Frame) -> Option<u64>
        requires search { IsSearch (M.next m.now) (M.size m.now) (with_top (search_state_of self.old) frame.old) }
        ensures search { IsSearch (M.next m.now) (M.size m.now) (with_top (search_state_of self.new) frame.new) }
        ensures kept { IsKept (search_state_of self.old) (search_state_of self.new) }
        ensures found { IfSome result (λ w. IsUnseenMove (M.next m.now) (M.size m.now) (search_state_of self.new) frame.new w) }
        ensures end { IfNone result (IsPast (M.next m.now) frame.new) }
    {
        // Reading the number of states tells the prover that it fits in 64 bits, and that all moves lead to states.
        let _states = m.states();
        let end = m.end_letter(frame.state);
        while frame.letter < end {
            let found = self.scan(m, frame);
            if found.is_some() {
                return found;
            }
            frame.letter += 1;
            frame.number = 0;
        }
        None
    }

    /// Goes on with a frame that was taken from the top: opens the first unseen target of its moves and puts the frame
    /// back below it, or finishes the state if there is no such target.
    fn step<M: NextStates>(&mut self, m: &M, mut frame: Frame) -> Result<(), OutOfMemory>
        requires search { IsSearch (M.next m.now) (M.size m.now) (with_top (search_state_of self.old) frame) }
        ensures search { OnOk result (IsSearch (M.next m.now) (M.size m.now) (search_state_of self.new)) }
        ensures seen { OnOk result (StaysSeen (search_state_of self.old) (search_state_of self.new)) }
        ensures work { OnOk result (work_of (search_state_of self.new) ≤ work_of (search_state_of self.old)) }
    {
        // Reading the number of states tells the prover that it fits in 64 bits, and that all moves lead to states.
        let _states = m.states();
        match self.advance(m, &mut frame) {
            Some(state) => {
                self.frames.push(frame)?;
                self.open(state)?;
            }
            None => self.finish(frame.depth),
        }
        Ok(())
    }

    /// Goes on with the topmost frame until there are no frames.
    fn run<M: NextStates>(&mut self, m: &M) -> Result<(), OutOfMemory>
        requires search { IsSearch (M.next m.now) (M.size m.now) (search_state_of self.old) }
        ensures search { OnOk result (IsSearch (M.next m.now) (M.size m.now) (search_state_of self.new)) }
        ensures frames { OnOk result ((search_state_of self.new).frames ≡ []) }
        ensures seen { OnOk result (StaysSeen (search_state_of self.old) (search_state_of self.new)) }
    {
        while let Some(frame) = self.frames.pop() {
            self.step(m, frame)?;
        }
        Ok(())
    }

    /// Makes a state without moves the next part, as its only state.
    fn close_alone(&mut self, state: u64)
        requires state_in { state < length (search_state_of self.old).places }
        requires room { (search_state_of self.old).parts < 2 ^ 63 }
        ensures { search_state_of self.new ≡ closed_alone (search_state_of self.old) state }
    {
        self.places[state as usize] = SearchPlace::Done(self.parts);
        self.parts += 1;
    }

    /// Searches from the unseen state `root`, while there are no frames. Afterwards `root` and all states that it
    /// reaches are done.
    fn visit<M: NextStates>(&mut self, m: &M, root: u64) -> Result<(), OutOfMemory>
        requires search { IsSearch (M.next m.now) (M.size m.now) (search_state_of self.old) }
        requires frames { (search_state_of self.old).frames ≡ [] }
        requires root_in { root < M.size m.now }
        requires not_seen { place_of (search_state_of self.old) root ≡ Unseen }
        ensures search { OnOk result (IsSearch (M.next m.now) (M.size m.now) (search_state_of self.new)) }
        ensures frames { OnOk result ((search_state_of self.new).frames ≡ []) }
        ensures visited { OnOk result (IsVisited root (search_state_of self.old) (search_state_of self.new)) }
    {
        // Reading the number of states tells the prover that it fits in 64 bits, and that all moves lead to states.
        let _states = m.states();
        if m.end_letter(root) == 0 {
            self.close_alone(root);
            return Ok(());
        }
        self.open(root)?;
        self.run(m)
    }
}

/// Returns the number of a state's part, or 0 if the state isn't done.
fn part_in(place: SearchPlace) -> u64
    ensures { result ≡ part_in place }
{
    match place {
        SearchPlace::Done(part) => part,
        _ => 0,
    }
}

/// Returns the search over a whole graph at its end: every state is done.
fn searched<M: NextStates>(alloc: Global, m: &M) -> Result<PartSearch, OutOfMemory>
    ensures search { IfOk result (λ s. IsSearch (M.next m.now) (M.size m.now) (search_state_of s)) }
    ensures done { IfOk result (λ s. IsAllDone (M.size m.now) (search_state_of s)) }
{
    let count = m.states();
    let mut search = PartSearch::new(alloc, count)?;
    for root in 0..count {
        if let SearchPlace::Unseen = search.places[root as usize] {
            search.visit(m, root)?;
        }
    }
    Ok(search)
}

/// Returns the part number of each state, or 0 for a state that isn't done.
fn numbers_in(alloc: Global, places: &[SearchPlace]) -> Result<Vec<u64>, OutOfMemory>
    ensures { IfOk result (λ v. v.items ≡ map part_in places.now) }
{
    let numbers = places.iter().map(|place| part_in(*place)).collect(alloc)?;
    Ok(numbers)
}

/// Returns the part number of each state of a graph.
fn part_numbers<M: NextStates>(alloc: Global, m: &M) -> Result<Vec<u64>, OutOfMemory>
    ensures { IfOk result (λ v. IsNumbered (M.next m.now) (M.size m.now) v.items) }
{
    let search = searched(alloc, m)?;
    numbers_in(alloc, &search.places)
}

/// Returns whether a state has a move on `letter` to a state with the same part number, which can be itself.
fn has_inner_on<M: NextStates>(m: &M, numbers: &[u64], state: u64, letter: u32) -> bool
    requires state_in { state < M.size m.now }
    requires letter_in { letter < M.width m.now }
    requires sizes { length numbers.now ≡ M.size m.now }
    ensures { IsTrue result ↔ HasInnerOn (M.next m.now) numbers.now state letter }
{
    let own = numbers[state as usize];
    for number in 0..m.count(state, letter) {
        let target = m.target(state, letter, number);
        if numbers[target as usize] == own {
            return true;
        }
    }
    false
}

/// Returns whether a state has a move to a state with the same part number, which can be itself.
fn has_inner<M: NextStates>(m: &M, numbers: &[u64], state: u64) -> bool
    requires state_in { state < M.size m.now }
    requires sizes { length numbers.now ≡ M.size m.now }
    ensures { IsTrue result ↔ HasInner (M.next m.now) numbers.now state }
{
    // Reading the number of states tells the prover that it fits in 64 bits, and that all moves lead to states.
    let _states = m.states();
    for letter in 0..m.end_letter(state) {
        if has_inner_on(m, numbers, state, letter) {
            return true;
        }
    }
    false
}

/// Returns a flag for each part number, which says whether at least two states have that number. `numbers` has the part
/// number of each state. Part numbers are less than the number of states, so there are as many flags as states.
fn shared_marks(alloc: Global, numbers: &[u64]) -> Result<Vec<bool>, OutOfMemory>
    requires { All (λ part. part < length numbers.now) numbers.now }
    ensures { IfOk result (λ v. AreShared numbers.now v.items) }
{
    let mut met = vec![in alloc; false; numbers.len()]?;
    let mut shared = vec![in alloc; false; numbers.len()]?;
    for number in numbers {
        let part = *number as usize;
        if met[part] {
            shared[part] = true;
        }
        met[part] = true;
    }
    Ok(shared)
}

/// Returns whether a state has a move to a state with the same part number. It has one if another state has its number.
/// Otherwise only a move to itself is one, and its moves are looked at only if it may have such a move.
fn is_inner<M: NextStates>(m: &M, numbers: &[u64], shared: &[bool], state: u64) -> bool
    requires state_in { state < M.size m.now }
    requires numbered { IsNumbered (M.next m.now) (M.size m.now) numbers.now }
    requires marked { AreShared numbers.now shared.now }
    ensures { IsTrue result ↔ HasInner (M.next m.now) numbers.now state }
{
    // Reading the number of states tells the prover that it fits in 64 bits, and that all moves lead to states.
    let _states = m.states();
    if shared[numbers[state as usize] as usize] {
        return true;
    }
    m.may_loop(state) && has_inner(m, numbers, state)
}

/// Returns, for each state, whether it has a move to a state with the same part number. This is so if and only if the
/// state lies on a cycle.
fn inner_marks<M: NextStates>(
    alloc: Global,
    m: &M,
    numbers: &[u64],
) -> Result<Vec<bool>, OutOfMemory>
    requires { IsNumbered (M.next m.now) (M.size m.now) numbers.now }
    ensures { IfOk result (λ v. AreInner (M.next m.now) (M.size m.now) numbers.now v.items) }
{
    let shared = shared_marks(alloc, numbers)?;
    let mut marks = Vec::with_capacity(alloc, numbers.len())?;
    for state in 0..m.states() {
        marks.push(is_inner(m, numbers, &shared, state))?;
    }
    Ok(marks)
}

/// The parts of a graph, that is, its strongly connected components: two states have the same part if and only if each
/// reaches the other.
#[derive(Drop)]
pub struct Parts {
    numbers: Vec<u64>,
    cycles: Vec<bool>,
}

impl Model for Parts {
    ghost use Rattle.std.specs.Prelude.{◌≡◌, length};
    ghost use Rattle.rl_graph.specs.Parts.{PartTable};

    ghost Value = { PartTable };

    ghost view = { λ p. record { numbers = p.numbers.items; cycles = p.cycles.items } };

    ghost invariant = { λ p. length p.cycles.items ≡ length p.numbers.items };
}

impl Parts {
    /// Returns the table with the part number of each state and a flag for each state that says whether it lies on a
    /// cycle.
    pub(crate) fn new(numbers: Vec<u64>, cycles: Vec<bool>) -> Parts
        requires { length cycles.items ≡ length numbers.items }
        ensures { result ≡ record { numbers = numbers.items; cycles = cycles.items } }
    {
        Parts { numbers, cycles }
    }

    /// Returns the number of the part of `state`, which must be a state of the graph. The number is less than the
    /// number of states. A part that is reached from another one has the smaller number.
    pub fn of(&self, state: u64) -> u64
        requires { state < length self.now.numbers }
        ensures { result ≡ number_of self.now state }
    {
        self.numbers[state as usize]
    }

    /// Returns whether `state`, which must be a state of the graph, reaches itself by at least one move.
    pub fn on_cycle(&self, state: u64) -> bool
        requires { state < length self.now.numbers }
        ensures { result ≡ cycle_of self.now state }
    {
        self.cycles[state as usize]
    }
}

/// Returns the parts of a graph, found by Gabow's path-based search (2000). The number of calls of `m` is linear in the
/// number of moves plus the product of the numbers of states and letters, and the memory is linear in the number of
/// states.
///
/// # Errors
/// [`OutOfMemory`] if there is not enough memory for the search or the parts.
pub fn parts_of<M: NextStates>(alloc: Global, m: &M) -> Result<Parts, OutOfMemory>
    ensures { IfOk result (λ p. IsParts (M.next m.now) (M.size m.now) p) }
{
    // Reading the number of states tells the prover that it fits in 64 bits, and that all moves lead to states.
    let _states = m.states();
    let numbers = part_numbers(alloc, m)?;
    let cycles = inner_marks(alloc, m, &numbers)?;
    Ok(Parts { numbers, cycles })
}

/// Removes the marks greater than `depth` from the end of the list. This joins their groups to the group that contains
/// `depth`.
fn cut(marks: &mut Vec<u64>, depth: u64)
    ensures { IsCut depth marks.old.items marks.new.items }
{
    while let Some(mark) = marks.last().copied() {
        if mark <= depth {
            break;
        }
        marks.pop();
    }
}

//! Ways: how the places of a tree read a text, told by decisions.
//!
//! A verdict knows two paths along one word. Their moves are numbers. This crate tells a path: for each character of the text,
//! the place of the tree whose set takes it, and the decisions on the way to that place: which tree of an `Either` is taken, and
//! whether another round of a `Many` begins. [`told_items`] lists what can be tried after a place, [`way_of`] tells a list of
//! move numbers, [`twin_ways`] the two paths of a twin and [`split_ways`] the three paths of a split. [`origins_of`] says where
//! in the pattern each node of a lowered tree comes from, so that a place or a decision can be shown there.
//!
//! # What is proved
//!
//! The functions return what the definitions say. By the [`laws`], told items without their decisions are the items of
//! `rl_prio` in the same order; no two of a list decide alike; two different lists of move numbers are told differently; a path
//! of the automaton is a way along the text; and each node of a lowered tree has an origin of its kind.
//!
//! Read `specs/Told.antt`, `specs/Apart.antt`, `specs/Ways.antt` and `specs/Origins.antt` in this order.
#![tactic(auto)]

pub mod item;
pub mod laws;
pub mod origin;
mod placing;
mod reading;
mod telling;

pub use item::{Decision, ToldItem};
pub use origin::Origin;
pub use placing::origins_of;
pub use reading::{
    SplitWays, TwoWays, place_of_state, split_ways, twin_ways, two_ways, way_between, way_of,
};
pub use telling::{after_of, first_of, places_of, size_of, told_items};

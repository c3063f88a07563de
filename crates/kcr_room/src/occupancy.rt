//! How many people are in the room of a ceremony at any moment, told in a few steps by the moments at
//! which they come and go.
ghost use Rattle.std.specs.Prelude.{◌≡◌, IfOk};
ghost use Rattle.std.specs.List.Sorted.{IsNonDecreasing, IsPermutation};
ghost use Rattle.kcr_room.specs.Moments;
ghost use Rattle.kcr_room.specs.Stays;

use crate::Stay;
use crate::presence::ends_after;
use kcr_base::{MAX_PRESENT, Moment};
use std::alloc::{AllocError, Global};

// Whether the stay is of the ceremony and holds at some moment.
fn is_held(ceremony: u32, stay: &Stay) -> bool
    ensures { result ≡ Stays.is_held ceremony stay.now }
{
    stay.ceremony == ceremony && ends_after(stay.since, stay.until)
}

// The moments at which somebody comes.
fn arrivals(alloc: Global, stays: &[Stay], ceremony: u32) -> Result<Vec<Moment>, AllocError>
    ensures { IfOk result (λ moments. moments.items ≡ Stays.comings_by stays.now ceremony) }
{
    stays
        .iter()
        .filter(|stay| is_held(ceremony, *stay))
        .map(|stay| stay.since)
        .collect(alloc)
}

// The moments at which somebody goes.
fn departures(alloc: Global, stays: &[Stay], ceremony: u32) -> Result<Vec<Moment>, AllocError>
    ensures { IfOk result (λ moments. moments.items ≡ Stays.goings_by stays.now ceremony) }
{
    stays
        .iter()
        .filter(|stay| is_held(ceremony, *stay))
        .filter_map(|stay| stay.until)
        .collect(alloc)
}

// The moments in order.
fn sorted(mut moments: Vec<Moment>) -> Vec<Moment>
    ensures moved { IsPermutation moments.items result.items }
    ensures rising { IsNonDecreasing result.items }
{
    moments.sort_unstable();
    moments
}

// How many of the moments are not later than this one.
fn count_until(moments: &[Moment], at: Moment) -> usize
    requires { IsNonDecreasing moments.now }
    ensures { result ≡ Moments.count_until moments.now at }
{
    moments.partition_point(|moment| *moment <= at)
}

// The sooner of two moments, if they are there.
fn min_moment(at: Option<Moment>, other: Option<Moment>) -> Option<Moment>
    ensures { result ≡ Moments.min_moment at other }
{
    match (at, other) {
        (Some(at), Some(other)) => Some(if at < other { at } else { other }),
        (Some(at), None) => Some(at),
        (None, other) => other,
    }
}

/// The moments at which people come to the room of a ceremony and those at which they go, each in order.
#[derive(Drop)]
struct Occupancy {
    arrivals: Vec<Moment>,
    departures: Vec<Moment>,
    ghost comings_rise: { IsNonDecreasing arrivals.items },
    ghost goings_rise: { IsNonDecreasing departures.items },
}

impl Occupancy {
    ghost use Rattle.std.specs.Prelude.{◌++◌, find};
    ghost use Rattle.std.specs.List.{filter, list_any};
    ghost use Rattle.kcr_room.specs.Occupancy.{headcount_of, is_crowd_of, is_lone_of, HasMomentsOf};

    // The traffic of the ceremony's room by these stays.
    fn of(alloc: Global, stays: &[Stay], ceremony: u32) -> Result<Occupancy, AllocError>
        ensures { IfOk result (λ traffic. HasMomentsOf traffic stays.now ceremony) }
    {
        let comings = sorted(arrivals(alloc, stays, ceremony)?);
        let goings = sorted(departures(alloc, stays, ceremony)?);
        Ok(Occupancy {
            arrivals: comings,
            departures: goings,
        })
    }

    // How many people are in the room at the moment.
    fn headcount(&self, at: Moment) -> usize
        ensures { result ≡ headcount_of self.now at }
    {
        let came = count_until(&self.arrivals, at);
        let went = count_until(&self.departures, at);
        came.saturating_sub(went)
    }

    fn is_crowd(&self, at: Moment) -> bool
        ensures { result ≡ is_crowd_of self.now at }
    {
        self.headcount(at) > MAX_PRESENT
    }

    fn is_lone(&self, at: Moment) -> bool
        ensures { result ≡ is_lone_of self.now at }
    {
        self.headcount(at) == 1
    }

    // Whether at any moment more than `MAX_PRESENT` people are in the room: at one at which somebody comes.
    fn is_crowded(&self) -> bool
        ensures { result ≡ list_any (is_crowd_of self.now) self.now.arrivals.items }
    {
        self.arrivals.iter().any(|at| self.is_crowd(*at))
    }

    // The first of these moments at which exactly one person is in the room.
    fn first_lone_of(&self, moments: &[Moment]) -> Option<Moment>
        ensures { result ≡ find (is_lone_of self.now) moments.now }
    {
        moments.iter().copied().find(|at| self.is_lone(*at))
    }

    // The first moment at which exactly one person is in the room, or `None` if there is none.
    fn first_lone(&self) -> Option<Moment>
        ensures { result ≡ Moments.least
            (filter (is_lone_of self.now) (self.now.arrivals.items ++ self.now.departures.items)) }
    {
        let at_coming = self.first_lone_of(&self.arrivals);
        let at_going = self.first_lone_of(&self.departures);
        min_moment(at_coming, at_going)
    }
}

/// Whether a room is ever too full, and when there is first exactly one person.
#[derive(Clone, Copy)]
pub(crate) struct OccupancyCheck {
    pub(crate) is_crowded: bool,
    pub(crate) first_lone: Option<Moment>,
}

// The crowding of the ceremony's room by these stays.
pub(crate) fn check_occupancy(
    alloc: Global,
    stays: &[Stay],
    ceremony: u32,
) -> Result<OccupancyCheck, AllocError>
    ensures crowded { IfOk result (λ crowding. crowding.is_crowded ≡ Stays.is_crowded_in_by stays.now ceremony) }
    ensures lone { IfOk result (λ crowding. crowding.first_lone ≡ Stays.first_lone_in_by stays.now ceremony) }
{
    let traffic = Occupancy::of(alloc, stays, ceremony)?;
    Ok(OccupancyCheck {
        is_crowded: traffic.is_crowded(),
        first_lone: traffic.first_lone(),
    })
}

// Zones as numbers in a list that is lent: 60, 12 each of: 1.0 if it is a bottom zone, bottom edge, top
// edge, flat edge, and flat edge on the device. Only this file and its definitions know how they lie.
ghost use Rattle.std.specs.Prelude.{◌≡◌, ◌<◌, length};
ghost use Rattle.zones.specs.Zones.{max_zones};
ghost use Rattle.zones.specs.Numbers.{zone_in, set_zone, gauge_of, ListedZones};

use crate::blues::BlueZone;
use crate::state::{Gauge, HintState};
use fixed::Fixed;
use stems::{mark_if, number_at, put_number};

// How many numbers zones are.
pub const ZONE_NUMBERS: usize = 60;

// Where each kind of number starts, behind the marks.
const BOTTOM_EDGES: usize = 12;

const TOP_EDGES: usize = 24;

const FLAT_EDGES: usize = 36;

const DEVICE_FLATS: usize = 48;

// The zone at a place.
#[tactic(auto, unfolding(crate::specs::Numbers::zone_in))]
pub(crate) fn zone_at(zones: &[i32; ZONE_NUMBERS], i: usize) -> BlueZone
    requires { i < max_zones }
    ensures { result ≡ zone_in zones.now i }
{
    BlueZone {
        is_bottom: Fixed::ZERO < number_at(zones, i),
        cs_bottom_edge: number_at(zones, BOTTOM_EDGES + i),
        cs_top_edge: number_at(zones, TOP_EDGES + i),
        cs_flat_edge: number_at(zones, FLAT_EDGES + i),
        ds_flat_edge: number_at(zones, DEVICE_FLATS + i),
    }
}

// A zone, at a place.
#[tactic(auto, unfolding(crate::specs::Numbers::set_zone))]
fn put_zone(zones: &mut [i32; ZONE_NUMBERS], i: usize, zone: BlueZone)
    requires { i < max_zones }
    ensures { zones.new ≡ set_zone zones.old i zone }
{
    put_number(zones, i, mark_if(zone.is_bottom));
    put_number(zones, BOTTOM_EDGES + i, zone.cs_bottom_edge);
    put_number(zones, TOP_EDGES + i, zone.cs_top_edge);
    put_number(zones, FLAT_EDGES + i, zone.cs_flat_edge);
    put_number(zones, DEVICE_FLATS + i, zone.ds_flat_edge);
}

impl HintState {
    // The numbers beside the zones.
    pub fn gauge(self) -> Gauge
        ensures { result ≡ gauge_of self }
    {
        Gauge {
            scale: self.scale,
            blue_scale: self.blue_scale,
            blue_shift: self.blue_shift,
            blue_fuzz: self.blue_fuzz,
            suppress_overshoot: self.suppress_overshoot,
            do_em_box_hints: self.do_em_box_hints,
            boost: self.boost,
            zone_count: self.zone_count,
        }
    }

    // The zones as numbers, at every place of a list.
    pub fn list(self, zones: &mut [i32; ZONE_NUMBERS])
        requires { length zones.old ≡ 60 }
        ensures { ListedZones self zones.new }
    {
        for (i, zone) in self.zones.iter().enumerate() {
            put_zone(zones, i, *zone);
        }
    }
}

//! One value for each area.

ghost use Rattle.std.specs.Prelude.{◌≡◌, ◌≤◌, if◌then◌else◌};
ghost use Rattle.rm_types.specs.declared.areas.Area.{Area};
ghost use Rattle.rm_outside.specs.Faults.{Rises};
ghost use Rattle.rm_outside.specs.Counts.{raised};
ghost use Rattle.rm_outside.specs.Areas.{is_same};
ghost use Rattle.rm_outside.specs.PerArea.{of_area};

use rm_types::Area;

/// One value for each area.
#[derive(Debug, Drop)]
pub struct PerArea<T> {
    pub master: T,
    pub log: T,
    pub data: T,
    pub space: T,
    pub copy: T,
}

impl<T> PerArea<T> {
    /// The same value for each area.
    pub fn all(value: T) -> PerArea<T>
    where
        T: Copy,
        ensures { (area : Area) → of_area result area ≡ value }
    {
        PerArea {
            master: value,
            log: value,
            data: value,
            space: value,
            copy: value,
        }
    }

    /// The value of that area.
    pub fn get(&self, area: Area) -> &T
        ensures { result.now ≡ of_area self.now area }
    {
        match area {
            Area::Master => &self.master,
            Area::Log => &self.log,
            Area::Data => &self.data,
            Area::Space => &self.space,
            Area::Copy => &self.copy,
        }
    }

    /// Sets the value of that area.
    pub fn set(&mut self, area: Area, value: T)
    where
        T: Drop,
        ensures { (other : Area) → of_area self.new other ≡ (if is_same area other then value else of_area self.old other) }
    {
        match area {
            Area::Master => self.master = value,
            Area::Log => self.log = value,
            Area::Data => self.data = value,
            Area::Space => self.space = value,
            Area::Copy => self.copy = value,
        }
    }
}

impl PerArea<u64> {
    /// Raises the count of that area by one. At its last value, 2^64 - 1, it stays.
    pub fn raise(&mut self, area: Area)
        ensures rises { Rises (of_area self.old area) (of_area self.new area) }
        ensures counts { (other : Area) → of_area self.old other ≤ of_area self.new other }
        ensures exact { (other : Area) → of_area self.new other ≡ (if is_same area other then raised (of_area self.old other) 1 else of_area self.old other) }
    {
        match area {
            Area::Master => self.master = self.master.saturating_add(1),
            Area::Log => self.log = self.log.saturating_add(1),
            Area::Data => self.data = self.data.saturating_add(1),
            Area::Space => self.space = self.space.saturating_add(1),
            Area::Copy => self.copy = self.copy.saturating_add(1),
        }
    }
}

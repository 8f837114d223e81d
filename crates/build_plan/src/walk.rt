ghost use Rattle.std.specs.Prelude.{◌≡◌, ◌<◌, [], false, length, replicate, All, IfOk, OnOk};
ghost use Rattle.build_plan.specs.Rows.{AreWithin};
ghost use Rattle.build_plan.specs.Lists.{lists_of};

use crate::marks::equal_marks;
use ob_text::NoMemory;
use std::alloc::Global;

/// The places that were met so far: a mark for each, and their order.
#[derive(Drop)]
pub(crate) struct Walk {
    pub(crate) marks: Vec<bool>,
    pub(crate) order: Vec<u32>,
}

impl Walk {
    ghost use Rattle.build_plan.specs.Walk.{met, meet, meet_all, allowed_of};

    fn new(alloc: Global, places: usize) -> Result<Walk, NoMemory>
        ensures { IfOk result (λ walk. met walk ≡ record {
          marks = replicate places false;
          order =
              [];
        }) }
    {
        Ok(Walk {
            marks: equal_marks(alloc, places, false)?,
            order: Vec::new(alloc),
        })
    }

    fn meet(&mut self, place: u32) -> Result<(), NoMemory>
        requires { place < length self.old.marks.items }
        ensures { OnOk result (met self.new ≡ meet (met self.old) place) }
    {
        let index = place as usize;
        if !self.marks[index] {
            self.order.push(place)?;
            self.marks[index] = true;
        }
        Ok(())
    }

    // Meets those of the places that are allowed.
    fn meet_allowed(&mut self, places: &[u32], allowed: &[bool]) -> Result<(), NoMemory>
        requires size { length allowed.now ≡ length self.old.marks.items }
        requires within { All (λ place. place < length self.old.marks.items) places.now }
        ensures { OnOk result (met self.new ≡ meet_all (met self.old) (allowed_of allowed.now
            places.now)) }
    {
        for place in places {
            if allowed[*place as usize] {
                self.meet(*place)?;
            }
        }
        Ok(())
    }

    ghost use Rattle.build_plan.specs.Walk.{HasMet};

    /// Meets the places to which one leads by allowed ones, by one step at least. Looks at each of them, and at each of
    /// their steps, once.
    pub(crate) fn from(
        alloc: Global,
        rows: &[Vec<u32>],
        from: u32,
        allowed: &[bool],
    ) -> Result<Walk, NoMemory>
        requires within { AreWithin (lists_of rows.now) }
        requires from { from < length rows.now }
        requires size { length allowed.now ≡ length rows.now }
        ensures { IfOk result (λ walk. HasMet (lists_of rows.now) allowed.now from (met walk)) }
    {
        let mut walk = Walk::new(alloc, rows.len())?;
        walk.meet_allowed(rows[from as usize].as_slice(), allowed)?;
        let mut at = 0;
        'walk: while at < walk.order.len() {
            let place = walk.order[at] as usize;
            walk.meet_allowed(rows[place].as_slice(), allowed)?;
            at += 1;
        }
        Ok(walk)
    }
}

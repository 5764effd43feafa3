//! The slots of a run, which hold mappings.
ghost use Rattle.std.specs.Prelude.{◌≡◌, ℕ, length, replicate, IfSome, MatchOption, Option, Some, None, slice_get};
ghost use Rattle.std.specs.Prelude.{slice_set};
ghost use Rattle.qcow2_image.specs.Prepared.{image_of};
ghost use Rattle.qcow2_image.specs.declared.mapping.Mapping.{Mapping};
ghost use Rattle.qcow2_image.specs.declared.prepared.Prepared.{Prepared};

use qcow2_image::{Mapping, Prepared};
use std::alloc::Global;
use std::mem;

// The mappings of a run, by slot. The prepared ones belong to one image.
pub(crate) struct Slots {
    pub(crate) image: u64,
    pub(crate) prepared: Vec<Option<Prepared>>,
    pub(crate) mappings: Vec<Option<Mapping>>,
    ghost all_prepared: { length prepared.items ≡ 256 },
    ghost all_mappings: { length mappings.items ≡ 256 },
    ghost own: { (k : ℕ) (p : Prepared) → slice_get prepared.items k ≡ Some (Some p) → image_of p ≡ image },
    ghost looked_up: { (k : ℕ) (m : Mapping) → slice_get mappings.items k ≡ Some (Some m) → m.image ≡ image },
}

impl Slots {
    pub(crate) fn new(alloc: Global, image: u64) -> Option<Slots>
        ensures image { IfSome result (λ s. s.image ≡ image) }
        ensures prepared { IfSome result (λ s. s.prepared.items ≡ replicate 256 None) }
        ensures mappings { IfSome result (λ s. s.mappings.items ≡ replicate 256 None) }
    {
        let Ok(mut mappings) = Vec::with_capacity(alloc, 256) else {
            return None;
        };
        let Ok(mut prepared) = Vec::with_capacity(alloc, 256) else {
            return None;
        };
        for _ in 0..256u16 {
            mappings.push_reserved(None);
            prepared.push_reserved(None);
        }
        Some(Slots {
            image,
            prepared,
            mappings,
        })
    }

    // Puts a mapping, or none, into a slot, and returns what was there.
    pub(crate) fn put(&mut self, slot: u8, prepared: Option<Prepared>) -> Option<Prepared>
        requires { IfSome prepared (λ p. image_of p ≡ self.old.image) }
        ensures own { IfSome result (λ p. image_of p ≡ self.new.image) }
        ensures image { self.new.image ≡ self.old.image }
        ensures was { slice_get self.old.prepared.items slot ≡ Some result }
        ensures is { self.new.prepared.items ≡ slice_set self.old.prepared.items slot prepared }
        ensures mappings { self.new.mappings.items ≡ self.old.mappings.items }
    {
        mem::replace(&mut self.prepared[usize::from(slot)], prepared)
    }

    // Puts a prepared mapping into an empty slot.
    pub(crate) fn fill(&mut self, slot: u8, prepared: Prepared)
        requires own { image_of prepared ≡ self.old.image }
        requires free { slice_get self.old.prepared.items slot ≡ Some None }
        ensures image { self.new.image ≡ self.old.image }
        ensures is { self.new.prepared.items ≡ slice_set self.old.prepared.items slot (Some prepared) }
        ensures mappings { self.new.mappings.items ≡ self.old.mappings.items }
    {
        match self.put(slot, Some(prepared)) {
            None => {}
            Some(_other) => unreachable!(),
        }
    }

    pub(crate) fn get(&self, slot: u8) -> Option<&Prepared>
        ensures { MatchOption result (slice_get self.now.prepared.items slot ≡ Some None)
            (λ p. slice_get self.now.prepared.items slot ≡ Some (Some p.now)) }
    {
        self.prepared[usize::from(slot)].as_ref()
    }
}

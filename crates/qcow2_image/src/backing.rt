//! Replacing the backing disk of an image.
ghost use Rattle.std.specs.Prelude.{◌≡◌, ◌↔◌, IsTrue, IsErr, IfErr, OnOk, List, Option, Err, false};
ghost use Rattle.qcow2_alloc.specs.declared.error.ImageError.TheVariants.{Failed, MappingPrepared};
ghost use Rattle.qcow2_image.specs.declared.prepared.Prepared.{Prepared};
ghost use Rattle.qcow2_image.specs.Backings.{HasPinnedMapping, IsOver};
ghost use Rattle.qcow2_image.specs.Image.{IsSameImage, is_failed};
ghost use Rattle.qcow2_image.specs.ImageInvariant.{IsHonestBacking, abstract_of, Mappings};
ghost use Rattle.qcow2_image.specs.Image.{HasPinnedTable};

use crate::{ImageError, Qcow2};
use image_access::{Storage, WrappedFormat};

impl<S: Storage, F: WrappedFormat<S>> Qcow2<S, F> {
    /// Sets the backing disk of the image, or none. The old one is dropped. Refused 16 (failed), and
    /// 17 (mapping prepared) while a mapping is prepared that isn't existing. A refusal returns the disk.
    pub fn set_backing(&mut self, backing: Option<F>) -> Result<(), (Option<F>, ImageError)>
        ensures failed { IsTrue (is_failed self.old) → (result ≡ Err (backing, Failed)) × (self.new ≡ self.old) }
        ensures refused { is_failed self.old ≡ false
            → IfErr result (λ refused. (refused ≡ (backing, MappingPrepared)) × (self.new ≡ self.old)) }
        ensures prepared { is_failed self.old ≡ false → (out : Mappings)
            → (abstract_of S.view F.backing self.old out).is_sound → IsErr result ↔ HasPinnedMapping out }
        ensures pinned { is_failed self.old ≡ false → IsErr result ↔ HasPinnedTable self.old }
        ensures image { IsSameImage self.old self.new }
        ensures done { OnOk result (self.new ≡ record self.old { backing = backing }) }
        ensures sees { (out : Mappings) → (abstract_of S.view F.backing self.old out).is_sound
            → IsHonestBacking S.view F.backing backing
            → OnOk result (IsOver S.view F.backing backing self.old self.new out) }
    {
        if self.is_failed {
            return Err((backing, ImageError::Failed));
        }
        if self.file.caches.first_pinned_l2().is_some() {
            return Err((backing, ImageError::MappingPrepared));
        }
        self.backing = backing;
        Ok(())
    }
}

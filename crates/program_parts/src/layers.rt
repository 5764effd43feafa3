//! The disk of an image over others.
ghost use Rattle.std.specs.Prelude.{◌≡◌, ◌<◌, ◌≤◌, ◌∷◌, ◌++◌, [], None, Some, length, IfOk, OnErr, OnOk};
ghost use Rattle.program_parts.specs.Layers.{IsAtMost, IsShown, layer_of, storage_at};

use crate::disks::DiskReader;
use image_access::Storage;
use qcow2_image::{ImageError, MappingKind, NoBacking, Qcow2};
use qcow2_session::read_into;
use std::alloc::{AllocError, Global};
use std::marker::Model;

/// An image over others, opened without the disk that it lies over.
#[derive(Drop)]
pub struct Layer<S: Storage> {
    image: Qcow2<S, NoBacking>,
    // The offset from which on its tables map nothing.
    mapped_end: u64,
    // A range that it was found not to map.
    empty_from: u64,
    empty_to: u64,
}

/// The disk that the guest of an image sees which lies over others: the image, those below it, and a raw disk below them all where there
/// is one. Each image shows what it maps, and the rest is left to the next one. Past the end of what lies below an image it is zeros,
/// whatever lies further below. Of what it holds nothing is known.
#[derive(Drop)]
pub struct Layers<S: Storage> {
    images: Vec<Layer<S>>,
    base: Option<S>,
    // The place of the layer that was read last.
    last: usize,
}

impl<S: Storage> Model for Layers<S> {
    ghost use Rattle.program_parts.specs.Layers.{Stack};

    ghost Value = { Stack S };

    ghost view = { λ layers. record { images = layers.images.items; base = layers.base; last = layers.last } };
}

// Whose bytes a range begins with, and how many they are.
#[derive(Clone, Copy)]
enum Shown {
    // The image's own.
    Here(usize),
    // Those of what is below it.
    Below(usize),
}

impl<S: Storage> Layers<S> {
    /// No layers, whose disk has no bytes.
    pub fn new(alloc: Global) -> Layers<S>
        ensures { result ≡ record { images = []; base = None; last = 0 } }
    {
        Layers {
            images: Vec::new(alloc),
            base: None,
            last: 0,
        }
    }

    /// Puts an image below the others, which was opened without the disk that it lies over, and whose tables map nothing from an offset
    /// on. Refused where memory is missing.
    pub fn push_image(
        &mut self,
        image: Qcow2<S, NoBacking>,
        mapped_end: u64,
    ) -> Result<(), AllocError>
        ensures pushed { OnOk result (self.new ≡ record self.old { images = self.old.images ++ (layer_of image mapped_end ∷ []) }) }
        ensures refused { OnErr result (self.new ≡ self.old) }
    {
        self.images.push(Layer {
            image,
            mapped_end,
            empty_from: 0,
            empty_to: 0,
        })?;
        Ok(())
    }

    /// Puts a raw disk below all images, in the place of the one that is there.
    pub fn set_base(&mut self, storage: S)
        ensures { self.new ≡ record self.old { base = Some storage } }
    {
        self.base = Some(storage);
    }

    /// The place of the layer that was read last, from 0 for the first image, and its storage; None where there is none.
    pub fn into_last_read(self) -> (usize, Option<S>)
        ensures { result ≡ (self.last, storage_at self self.last) }
    {
        let place = self.last;
        let mut images = self.images;
        if place < images.len() {
            return (place, Some(images.swap_remove(place).image.into_storage()));
        }
        if place == images.len() {
            (place, self.base)
        } else {
            (place, None)
        }
    }

    // Reads bytes from an offset on that one layer shows, one or more. The answer is how many.
    fn read_some(&mut self, at: u64, bytes: &mut [u8]) -> Result<usize, ImageError>
        requires some { 0 < length bytes.old }
        ensures count { IfOk result (λ n. (0 < n) × (n ≤ length bytes.old)) }
    {
        let mut count = bytes.len();
        for place in 0..self.images.len() {
            self.last = place;
            match read_own(&mut self.images[place].image, at, &mut bytes[..count])? {
                Shown::Here(own) => return Ok(own),
                Shown::Below(rest) => count = rest,
            }
        }
        self.last = self.images.len();
        read_base(&mut self.base, at, &mut bytes[..count])?;
        Ok(count)
    }

    // How many bytes from an offset on are zeros by the tables of all layers, up to a limit.
    fn zeros_at(&mut self, at: u64, max: usize) -> Result<usize, ImageError>
        ensures { IfOk result (λ n. n ≤ max) }
    {
        let mut count = max;
        for place in 0..self.images.len() {
            self.last = place;
            match self.images[place].zeros_of_own(at, count)? {
                Shown::Here(own) => return Ok(own),
                Shown::Below(rest) => count = rest,
            }
        }
        self.last = self.images.len();
        zeros_of_base(&mut self.base, at, count)
    }
}

// Reads what an image has of its own from an offset on, one byte or more, or answers for how many bytes it has nothing.
fn read_own<S: Storage>(
    image: &mut Qcow2<S, NoBacking>,
    at: u64,
    bytes: &mut [u8],
) -> Result<Shown, ImageError>
    requires some { 0 < length bytes.old }
    ensures count { IfOk result (IsShown (length bytes.old)) }
{
    let all = bytes.len();
    if at >= image.size() {
        bytes.fill(0);
        return Ok(Shown::Here(all));
    }
    let (mapping, count) = image.get_mapping(at, all as u64)?;
    let count = count as usize;
    if mapping.kind == (MappingKind::Zero { explicit: false }) {
        return Ok(Shown::Below(count));
    }
    read_into(image, at, &mut bytes[..count])?;
    Ok(Shown::Here(count))
}

impl<S: Storage> Layer<S> {
    // How many bytes from an offset on are zeros of an image's own by its tables, 0 if they have data there, or for how many they have
    // nothing. What they have nothing for is looked up once.
    fn zeros_of_own(&mut self, at: u64, max: usize) -> Result<Shown, ImageError>
        ensures { IfOk result (IsAtMost max) }
    {
        if self.empty_from <= at && at < self.empty_to {
            return Ok(Shown::Below(max.min((self.empty_to - at) as usize)));
        }
        let size = self.image.size();
        if at >= size {
            return Ok(Shown::Here(max));
        }
        let rest = size - at;
        if at >= self.mapped_end {
            return Ok(Shown::Below(max.min(rest as usize)));
        }
        let (mapping, _) = self.image.get_mapping(at, 1)?;
        let MappingKind::Zero { explicit } = mapping.kind else {
            return Ok(Shown::Here(0));
        };
        let (_, count) = self.image.get_mapping(at, rest)?;
        let shown = max.min(count as usize);
        if explicit {
            return Ok(Shown::Here(shown));
        }
        self.empty_from = at;
        self.empty_to = at.saturating_add(count);
        Ok(Shown::Below(shown))
    }
}

// How many bytes of the raw disk below all are zeros because they lie past its end, or there is none.
fn zeros_of_base<S: Storage>(base: &mut Option<S>, at: u64, max: usize) -> Result<usize, ImageError>
    ensures { IfOk result (λ n. n ≤ max) }
{
    if let Some(base) = base {
        if at < base.size()? {
            return Ok(0);
        }
    }
    Ok(max)
}

// Reads the raw disk below all, which is zeros where there is none.
fn read_base<S: Storage>(
    base: &mut Option<S>,
    at: u64,
    bytes: &mut [u8],
) -> Result<(), ImageError> {
    match base {
        Some(base) => base.read(at, bytes)?,
        None => bytes.fill(0),
    }
    Ok(())
}

impl<S: Storage> DiskReader for Layers<S> {
    ghost use Rattle.program_parts.specs.Layers.{seen_layers};

    ghost seen = { λ layers. seen_layers };

    fn byte_count(&mut self) -> Result<u64, ImageError> {
        match self.images.first() {
            Some(layer) => Ok(layer.image.size()),
            None => Ok(0),
        }
    }

    fn read_bytes(&mut self, at: u64, bytes: &mut [u8]) -> Result<(), ImageError> {
        let mut done = 0;
        while done < bytes.len() {
            let Some(place) = at.checked_add(done as u64) else {
                return Err(ImageError::BeyondSize);
            };
            done += self.read_some(place, &mut bytes[done..])?;
        }
        Ok(())
    }

    fn known_zeros(&mut self, at: u64, max: u64) -> Result<u64, ImageError> {
        Ok(self.zeros_at(at, max as usize)? as u64)
    }
}

//! Writing a header, whole or in parts.

ghost use Rattle.std.specs.Prelude.{◌≡◌, ◌≢◌, ◌+◌, ◌≤◌, ℕ, [], ◌∷◌, ◌++◌, length, replicate, unwrap_or, IsOk, OnOk, OnErr, IfOk, option_map, option_copied};
ghost use Rattle.std.specs.String.{string_bytes};
ghost use Rattle.qcow2_metadata.specs.HeaderWrite.{numbers_of as numbers_of_fields, AllFit, IsText, HasNewNames, bytes_of_number, bytes_of_numbers, extension_bytes, name_extension, header_bytes, header_written, size_written, l1_table_pointer_written, reftable_pointer_written, autoclear_cleared};
ghost use Rattle.qcow2_metadata.specs.Bytes.{byte_at};
ghost use Rattle.qcow2_metadata.specs.Header.{IsShort, IsInRange, IsWithinLimits, header, with_fields, with_size, with_l1_table, with_reftable, without_autoclear};
ghost use Rattle.qcow2_metadata.specs.HeaderLoad.{IsHeaderIn};
ghost use Rattle.image_access.specs.Moments.{Changes, Calls};

use super::extensions::{BACKING_FORMAT, DATA_FILE};
use super::{Header, HeaderFields};
use image_access::{Storage, StorageError};
use std::alloc::{AllocError, Global};

/// A number of four or eight bytes, the most significant first.
#[derive(Clone, Copy)]
pub(crate) enum Number {
    Four(u32),
    Eight(u64),
}

/// The numbers of a header in their order.
#[tactic(auto, unfolding(crate::specs::HeaderWrite::numbers_of))]
fn numbers_of(fields: HeaderFields) -> [Number; 18]
    ensures value { result ≡ numbers_of_fields fields }
    ensures fit { AllFit (numbers_of_fields fields) }
{
    [
        Number::Four(fields.magic),
        Number::Four(fields.version),
        Number::Eight(fields.backing_offset),
        Number::Four(fields.backing_length),
        Number::Four(fields.cluster_bits),
        Number::Eight(fields.size),
        Number::Four(fields.crypt_method),
        Number::Four(fields.l1_entries),
        Number::Eight(fields.l1_offset),
        Number::Eight(fields.reftable_offset),
        Number::Four(fields.reftable_clusters),
        Number::Four(fields.snapshots),
        Number::Eight(fields.snapshots_offset),
        Number::Eight(fields.incompatible),
        Number::Eight(fields.compatible),
        Number::Eight(fields.autoclear),
        Number::Four(fields.refcount_order),
        Number::Four(fields.header_length),
    ]
}

fn push_number(bytes: &mut Vec<u8>, number: Number) -> Result<(), AllocError>
    ensures { OnOk result (bytes.new.items ≡ bytes.old.items ++ bytes_of_number number) }
{
    match number {
        Number::Four(n) => bytes.extend_from_slice(&n.to_be_bytes()),
        Number::Eight(n) => bytes.extend_from_slice(&n.to_be_bytes()),
    }
}

#[tactic(auto, unfolding(crate::specs::HeaderWrite::bytes_of_numbers))]
fn push_numbers(bytes: &mut Vec<u8>, numbers: &[Number]) -> Result<(), AllocError>
    ensures { OnOk result (bytes.new.items ≡ bytes.old.items ++ bytes_of_numbers numbers.now) }
{
    for number in numbers {
        push_number(bytes, *number)?;
    }
    Ok(())
}

fn push_zeroes(bytes: &mut Vec<u8>, count: usize) -> Result<(), AllocError>
    ensures { OnOk result (bytes.new.items ≡ bytes.old.items ++ replicate count 0) }
{
    let Some(size) = bytes.len().checked_add(count) else {
        return Err(AllocError);
    };
    bytes.resize(size, 0)
}

#[tactic(auto, using(std::proofs::lemmas::List::append_assoc), unfolding(crate::specs::HeaderWrite::extension_bytes))]
fn push_extension(bytes: &mut Vec<u8>, kind: u32, name: &str) -> Result<(), AllocError>
    requires { length name.now ≤ 2097152 }
    ensures { OnOk result (bytes.new.items ≡ bytes.old.items ++ extension_bytes kind name.now) }
{
    let size = name.len();
    push_numbers(bytes, &[Number::Four(kind), Number::Four(size as u32)])?;
    bytes.extend_from_slice(name.as_bytes())?;
    push_zeroes(bytes, size.div_ceil(8) * 8 - size)
}

/// The extension of a name, if there is one.
fn push_name(bytes: &mut Vec<u8>, kind: u32, name: Option<&str>) -> Result<(), AllocError>
    requires { IsShort (option_copied name) }
    ensures { OnOk result (bytes.new.items ≡ bytes.old.items ++ name_extension kind (option_copied name.entry)) }
{
    match name {
        Some(name) => push_extension(bytes, kind, name),
        None => Ok(()),
    }
}

fn push_text(bytes: &mut Vec<u8>, text: Option<&str>) -> Result<(), AllocError>
    ensures { OnOk result (bytes.new.items ≡ bytes.old.items ++ unwrap_or (option_copied text.entry) []) }
{
    match text {
        Some(text) => bytes.extend_from_slice(text.as_bytes()),
        None => Ok(()),
    }
}

fn text_of(name: &Option<String>) -> Option<&str>
    ensures value { option_copied result ≡ option_map string_bytes name.now }
    ensures text { IsText (option_map string_bytes name.now) }
{
    match name {
        Some(name) => Some(name.as_str()),
        None => None,
    }
}

impl Header {
    #[tactic(auto, using(std::proofs::lemmas::List::append_assoc), unfolding(crate::specs::HeaderWrite::header_bytes))]
    fn to_bytes(&self, alloc: Global) -> Result<Vec<u8>, AllocError>
        ensures bytes { IfOk result (λ bytes. bytes.items ≡ header_bytes self.now) }
        ensures fit { AllFit (numbers_of_fields self.now.fields) }
        ensures in_range { IsInRange self.now.fields }
        ensures within_limits { IsWithinLimits self.now.fields }
        ensures backing_name { IsText self.now.backing_name }
        ensures backing_format { IsText self.now.backing_format }
        ensures data_file_name { IsText self.now.data_file_name }
    {
        let numbers = numbers_of(self.fields);
        let backing_name = text_of(&self.backing_name);
        let backing_format = text_of(&self.backing_format);
        let data_file_name = text_of(&self.data_file_name);
        let mut bytes = Vec::new(alloc);
        push_numbers(&mut bytes, &numbers)?;
        push_name(&mut bytes, BACKING_FORMAT, backing_format)?;
        push_name(&mut bytes, DATA_FILE, data_file_name)?;
        push_zeroes(&mut bytes, 8)?;
        push_text(&mut bytes, backing_name)?;
        Ok(bytes)
    }

    /// Writes the header and its names at the beginning of the image. Call it only for a new image: other extensions of a header that was loaded
    /// would be lost. Refused `Memory` if there is no memory for its bytes, and as the storage refuses.
    pub fn write<S: Storage>(&self, alloc: Global, storage: &mut S) -> Result<(), StorageError>
        ensures written { Changes (S.view storage.old) (S.view storage.new) result (header_written self.now) }
        ensures reads { HasNewNames self.now → IsHeaderIn self.now (header_written self.now (S.view storage.old).contents) }
        ensures calls { Calls (S.view storage.old) (S.view storage.new) result }
    {
        let bytes = self.to_bytes(alloc)?;
        storage.write(0, &bytes)
    }
}

/// A number of four bytes and one of eight.
#[tactic(auto, unfolding(crate::specs::HeaderWrite::bytes_of_numbers))]
fn four_and_eight(four: u32, eight: u64) -> [u8; 12]
    ensures { result ≡ bytes_of_numbers (Number.Four four ∷ Number.Eight eight ∷ []) }
{
    let mut bytes = [0; 12];
    let (front, back) = bytes.split_at_mut(4);
    front.copy_from_slice(&four.to_be_bytes());
    back.copy_from_slice(&eight.to_be_bytes());
    bytes
}

/// A number of eight bytes and one of four.
#[tactic(auto, unfolding(crate::specs::HeaderWrite::bytes_of_numbers))]
fn eight_and_four(eight: u64, four: u32) -> [u8; 12]
    ensures { result ≡ bytes_of_numbers (Number.Eight eight ∷ Number.Four four ∷ []) }
{
    let mut bytes = [0; 12];
    let (front, back) = bytes.split_at_mut(8);
    front.copy_from_slice(&eight.to_be_bytes());
    back.copy_from_slice(&four.to_be_bytes());
    bytes
}

impl Header {
    /// Writes the size. Refused as the storage refuses.
    #[tactic(auto, using(crate::proofs::WrittenHeader::size_after))]
    pub fn write_size<S: Storage>(&self, storage: &mut S) -> Result<(), StorageError>
        ensures written { Changes (S.view storage.old) (S.view storage.new) result (size_written self.now.fields) }
        ensures fields { header (byte_at (size_written self.now.fields (S.view storage.old).contents))
            ≡ with_size (header (byte_at (S.view storage.old).contents)) self.now.fields.size }
        ensures reads { (size : ℕ) → IsHeaderIn (with_fields self.now (with_size self.now.fields size)) (S.view storage.old).contents
            → IsHeaderIn self.now (size_written self.now.fields (S.view storage.old).contents) }
        ensures calls { Calls (S.view storage.old) (S.view storage.new) result }
    {
        storage.write(24, &self.fields.size.to_be_bytes())
    }

    /// Writes the offset and the length of the L1 table. Refused as the storage refuses.
    #[tactic(auto, using(crate::proofs::WrittenHeader::l1_table_after))]
    pub fn write_l1_table_pointer<S: Storage>(&self, storage: &mut S) -> Result<(), StorageError>
        ensures written { Changes (S.view storage.old) (S.view storage.new) result (l1_table_pointer_written self.now.fields) }
        ensures fields { header (byte_at (l1_table_pointer_written self.now.fields (S.view storage.old).contents))
            ≡ with_l1_table (header (byte_at (S.view storage.old).contents)) self.now.fields.l1_offset self.now.fields.l1_entries }
        ensures reads { (offset entries : ℕ)
            → IsHeaderIn (with_fields self.now (with_l1_table self.now.fields offset entries))
            (S.view storage.old).contents → IsHeaderIn self.now
            (l1_table_pointer_written self.now.fields (S.view storage.old).contents) }
        ensures calls { Calls (S.view storage.old) (S.view storage.new) result }
    {
        let pointer = four_and_eight(self.fields.l1_entries, self.fields.l1_offset);
        storage.write(36, &pointer)
    }

    /// Writes the offset and the length of the reftable. Refused as the storage refuses.
    #[tactic(auto, using(crate::proofs::WrittenHeader::reftable_after))]
    pub fn write_reftable_pointer<S: Storage>(&self, storage: &mut S) -> Result<(), StorageError>
        ensures written { Changes (S.view storage.old) (S.view storage.new) result (reftable_pointer_written self.now.fields) }
        ensures fields { header (byte_at (reftable_pointer_written self.now.fields (S.view storage.old).contents))
            ≡ with_reftable (header (byte_at (S.view storage.old).contents)) self.now.fields.reftable_offset self.now.fields.reftable_clusters }
        ensures reads { (offset clusters : ℕ)
            → IsHeaderIn (with_fields self.now (with_reftable self.now.fields offset clusters))
            (S.view storage.old).contents → IsHeaderIn self.now
            (reftable_pointer_written self.now.fields (S.view storage.old).contents) }
        ensures calls { Calls (S.view storage.old) (S.view storage.new) result }
    {
        let pointer = eight_and_four(self.fields.reftable_offset, self.fields.reftable_clusters);
        storage.write(48, &pointer)
    }

    /// Clears the autoclear bits in the image and in memory, if one is set. Refused as the storage refuses; the bits in memory then stay.
    #[tactic(auto, using(crate::proofs::WrittenHeader::autoclear_after))]
    pub fn clear_autoclear<S: Storage>(&mut self, storage: &mut S) -> Result<(), StorageError>
        ensures written { self.old.fields.autoclear ≢ 0 → Changes (S.view storage.old) (S.view storage.new) result autoclear_cleared }
        ensures untouched { self.old.fields.autoclear ≡ 0 → IsOk result × (storage.new ≡ storage.old) }
        ensures ok { OnOk result (self.new ≡ with_fields self.old (without_autoclear self.old.fields)) }
        ensures err { OnErr result (self.new ≡ self.old) }
        ensures fields { header (byte_at (autoclear_cleared (S.view storage.old).contents)) ≡ without_autoclear
            (header (byte_at (S.view storage.old).contents)) }
        ensures reads { self.old.fields.autoclear ≢ 0 → IsHeaderIn self.old (S.view storage.old).contents
            → IsHeaderIn (with_fields self.old (without_autoclear self.old.fields)) (autoclear_cleared (S.view storage.old).contents) }
        ensures calls { Calls (S.view storage.old) (S.view storage.new) result }
    {
        if self.fields.autoclear == 0 {
            return Ok(());
        }
        storage.write(88, &[0; 8])?;
        self.fields.autoclear = 0;
        Ok(())
    }
}

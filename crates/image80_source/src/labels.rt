//! The labels of a source, by address, and the names of ports.

ghost use Rattle.std.specs.Prelude.{◌≡◌, ◌++◌, OnOk};
ghost use Rattle.image80_source.specs.Labels.{made_label};

use crate::contents::is_set;
use image80::Regions;
use image80_text::PublicTable;
use omf_model::Public;
use std::alloc::AllocError;
use std::marker::Model;
use text80::word_digits;

/// Which addresses have a label, and which ports a name.
#[derive(Drop)]
pub(crate) struct Labels<'a> {
    /// The image's regions.
    pub regions: &'a Regions,
    /// The image's publics.
    pub publics: &'a PublicTable,
    /// By address, whether it has a label.
    pub marks: Vec<bool>,
    /// By address, whether its label is the name of its public.
    pub own: Vec<bool>,
    /// By port, whether it has a name.
    pub ports: Vec<bool>,
}

impl<'a> Model for Labels<'a> {
    ghost use Rattle.image80_source.specs.Labels.{LabelTables};

    ghost Value = { LabelTables };

    ghost view = { λ l. record {
      regions = l.regions.now;
      publics = l.publics.now;
      marks = l.marks.items;
      own = l.own.items;
      ports = l.ports.items;
    } };
}

impl<'a> Labels<'a> {
    ghost use Rattle.std.specs.Prelude.{◌≡◌, ◌++◌, OnOk, false, option_copied, slice_index_or};
    ghost use Rattle.image80_source.specs.Labels.{is_named_port, label_name, other_public, own_public};

    /// By address, whether it has a label.
    pub(crate) fn marks(&self) -> &[bool]
        ensures { result.now ≡ self.now.marks }
    {
        &self.marks
    }

    /// Whether an address has a label.
    pub(crate) fn has_label(&self, address: u16) -> bool
        ensures { result ≡ slice_index_or self.now.marks address false }
    {
        is_set(&self.marks, usize::from(address))
    }

    /// Whether a port has a name.
    pub(crate) fn has_port(&self, port: u8) -> bool
        ensures { result ≡ is_named_port self.now port }
    {
        is_set(&self.ports, usize::from(port))
    }

    /// The public whose name is the label of an address.
    fn own_public(&self, address: u16) -> Option<&Public>
        ensures { option_copied result ≡ own_public self.now address }
    {
        if is_set(&self.own, usize::from(address)) {
            self.publics.at(address)
        } else {
            None
        }
    }

    /// The public of an address whose name is no label.
    pub(crate) fn other_public(&self, address: u16) -> Option<&Public>
        ensures { option_copied result ≡ other_public self.now address }
    {
        if is_set(&self.own, usize::from(address)) {
            None
        } else {
            self.publics.at(address)
        }
    }

    /// Appends the label of an address, which is the name of its public or made of the address.
    pub(crate) fn append_name(&self, address: u16, out: &mut Vec<u8>) -> Result<(), AllocError>
        ensures { OnOk result (out.new.items ≡ out.old.items ++ label_name self.now address) }
    {
        match self.own_public(address) {
            Some(public) => out.extend_from_slice(public.name.bytes()),
            None => append_made(self.regions, address, out),
        }
    }
}

/// Appends the label that is made of an address: R for an address of data or stack, L for others, and its digits.
fn append_made(regions: &Regions, address: u16, out: &mut Vec<u8>) -> Result<(), AllocError>
    ensures { OnOk result (out.new.items ≡ out.old.items ++ made_label regions.now address) }
{
    let is_ram = regions.in_data(address) || regions.stack().contains(address);
    out.push(if is_ram { b'R' } else { b'L' })?;
    out.extend_from_slice(&word_digits(address))
}

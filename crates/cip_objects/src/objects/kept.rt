//! What is kept of the objects over a restart, and objects that start from it.
ghost use Rattle.std.specs.Prelude.{◌≡◌, true, length, unwrap_or, is_some, slice_get};
ghost use Rattle.byteorder.specs.Endian.{little_bytes};
ghost use Rattle.cip_application.specs.Values.{as_whole};
ghost use Rattle.cip_objects.specs.Contents.{with_value};
ghost use Rattle.cip_objects.specs.DeviceWrites.{object_by};
ghost use Rattle.cip_objects.specs.Kept.{kept_names, names_behind_assemblies, with_kept, kept_data_kind};
ghost use Rattle.cip_objects.specs.Kept.{kept_number_kind, kept_object_kind, restored};
ghost use Rattle.cip_objects.specs.ObjectRef.{HasCounter};

use crate::objects::Objects;
use byteorder::{ByteOrder, LittleEndian};
use cip_application::AttributeName;
use cip_bytes::protocol::{ASSEMBLY, COUNTER};

impl Objects {
    /// The name of a value that is kept over a restart, by its index: the data of the assemblies, the counter's value,
    /// limit and additions, and the attributes of the application objects, in the order of the configuration. Of an
    /// object of the standard only the settable attributes are kept. `None` past the last. `read_attribute` reads the
    /// value. Allocates nothing.
    ///
    /// ```
    /// let mut index = 0;
    /// while let Some(name) = objects.kept_name(index) {
    ///     objects.read_attribute(name.class, u32::from(name.instance), name.attribute, &mut value);
    ///     index += 1;
    /// }
    /// ```
    pub fn kept_name(&self, index: usize) -> Option<AttributeName>
        ensures { result ≡ slice_get (kept_names self.now.shapes) index }
    {
        let assemblies = self.assemblies.len();
        if index < assemblies {
            return Some(AttributeName {
                class: ASSEMBLY,
                instance: self.assemblies[index].instance(),
                attribute: 3,
            });
        }
        self.name_behind_assemblies(index - assemblies)
    }

    /// The name of a value that is kept, by its index behind the assemblies.
    fn name_behind_assemblies(&self, index: usize) -> Option<AttributeName>
        ensures { result ≡ slice_get (names_behind_assemblies self.now.shapes) index }
    {
        if !self.counter.enabled {
            return self.application.kept_name(index);
        }
        // The counter has attributes 1 to 3.
        if index >= 3 {
            return self.application.kept_name(index - 3);
        }
        Some(AttributeName {
            class: COUNTER,
            instance: 1,
            attribute: index as u16 + 1,
        })
    }

    /// Sets a value as it was kept, and returns whether it did. The bytes must have the size of the value, or be a text
    /// that is not longer than its room. Otherwise, or if no value of this name is kept, it returns `false` and changes
    /// nothing. It is not counted as a change, and no range binds it. Allocates nothing.
    ///
    /// With this call a device starts from what it kept, before it answers any peer.
    ///
    /// ```
    /// let name = AttributeName { class: 4, instance: 100, attribute: 3 };
    /// objects.restore(name, &[0xaa, 0xbb]); // false unless assembly 100 has two bytes
    /// ```
    #[tactic(auto, unfolding(crate::specs::Kept::restored))]
    pub fn restore(&mut self, name: AttributeName, bytes: &[u8]) -> bool
        ensures restored { self.new ≡ unwrap_or (restored self.old name bytes.now) self.old }
        ensures reported { result ≡ is_some (restored self.old name bytes.now) }
    {
        if name.class == ASSEMBLY {
            return self.restore_data(name.instance, name.attribute, bytes);
        }
        if name.class == COUNTER && self.has_counter() {
            return self.restore_number(name.instance, name.attribute, bytes);
        }
        self.restore_attribute(name.class, u32::from(name.instance), name.attribute, bytes)
    }

    /// Sets the data of an assembly as they were kept.
    fn restore_data(&mut self, instance: u16, attribute: u16, bytes: &[u8]) -> bool
        ensures restored { self.new
            ≡ unwrap_or (with_kept self.old ASSEMBLY instance attribute bytes.now
            (kept_data_kind self.old.shapes instance attribute)) self.old }
        ensures reported { result
            ≡ is_some (with_kept self.old ASSEMBLY instance attribute bytes.now
            (kept_data_kind self.old.shapes instance attribute)) }
    {
        if attribute != 3 {
            return false;
        }
        let Some(assembly_index) = self.assembly_index(u32::from(instance)) else {
            return false;
        };
        if bytes.len() != self.assembly(assembly_index).size() {
            return false;
        }
        self.write_content(assembly_index, 0, bytes);
        true
    }

    /// Sets a number of the counter as it was kept.
    fn restore_number(&mut self, instance: u16, attribute: u16, bytes: &[u8]) -> bool
        requires { HasCounter self.old.shapes }
        ensures restored { self.new
            ≡ unwrap_or (with_kept self.old COUNTER instance attribute bytes.now
            (kept_number_kind instance attribute)) self.old }
        ensures reported { result
            ≡ is_some (with_kept self.old COUNTER instance attribute bytes.now (kept_number_kind instance attribute)) }
    {
        if instance != 1 || bytes.len() != 4 {
            return false;
        }
        let number = LittleEndian::read_u32(bytes);
        match attribute {
            1 => self.set_value(number),
            2 => self.restore_limit(number),
            3 => self.set_additions(number),
            _ => return false,
        }
        true
    }

    /// Sets the counter's limit as it was kept.
    fn restore_limit(&mut self, limit: u32)
        requires { HasCounter self.old.shapes }
        ensures { self.new ≡ with_value self.old COUNTER 1 2 (little_bytes 4 limit) }
    {
        self.counter.limit = limit;
    }

    /// Sets an attribute of an application object as it was kept.
    #[tactic(auto, using(crate::proofs::KeptValues::object_kept, crate::proofs::KeptValues::not_kept))]
    fn restore_attribute(&mut self, class: u16, instance: u32, attribute: u16, bytes: &[u8]) -> bool
        ensures restored { self.new
            ≡ unwrap_or (with_kept self.old class instance attribute bytes.now
            (kept_object_kind self.old.shapes class instance attribute)) self.old }
        ensures reported { result
            ≡ is_some (with_kept self.old class instance attribute bytes.now
            (kept_object_kind self.old.shapes class instance attribute)) }
    {
        if !self.is_kept_attribute(class, instance, attribute) {
            return false;
        }
        self.put_back(class, instance, attribute, bytes)
    }

    /// Whether an attribute of an application object is kept.
    fn is_kept_attribute(&self, class: u16, instance: u32, attribute: u16) -> bool
        ensures { result ≡ is_some (kept_object_kind self.now.shapes class instance attribute) }
    {
        self.application.is_kept(class, instance, attribute)
    }

    /// Puts bytes in place of the value of an attribute of an application object, and returns whether it did.
    fn put_back(&mut self, class: u16, instance: u32, attribute: u16, bytes: &[u8]) -> bool
        ensures restored { self.new
            ≡ unwrap_or (object_by (as_whole bytes.now) self.old class instance attribute) self.old }
        ensures reported { result ≡ is_some (object_by (as_whole bytes.now) self.old class instance attribute) }
    {
        self.application.restore(class, instance, attribute, bytes)
    }
}

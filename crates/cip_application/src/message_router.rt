//! The Message Router, as an application object: which classes answer on a device, and how many connections it has.
//! Text: docs/PROTOCOL.md, "Objects".
ghost use Rattle.std.specs.Prelude.{◌≡◌, ◌≤◌, ◌+◌, IfOk, IfSome, OnOk, length, map};
ghost use Rattle.cip_application.specs.MessageRouter.{with_class, own_classes, classes_of, object_list};
ghost use Rattle.cip_application.specs.MessageRouter.{router_attributes, placed};
ghost use Rattle.cip_application.specs.Standard.{IsStandard};

use crate::config::{LEDGER, OBJECT_LIMIT, ObjectConfig};
use crate::standard::push_fixed;
use cip_bytes::protocol::{ASSEMBLY, CONNECTION_MANAGER, COUNTER, IDENTITY, MESSAGE_ROUTER};
use std::alloc::{AllocError, Global};

/// The most classes of the object list: the device's own six, and one of each application object.
const CLASS_LIMIT: usize = OBJECT_LIMIT + 6;

/// The Message Router of a device, class 2.
///
/// ```
/// let router = MessageRouter { counter: true, ledger: false, connections: 16 };
/// let object = router.object(alloc, &objects)?; // attribute 1 lists the classes of `objects` too
/// objects.push(object)?;
/// ```
#[derive(Clone, Copy, Debug)]
pub struct MessageRouter {
    /// Whether the device has the counter.
    pub counter: bool,
    /// Whether the device has the command ledger.
    pub ledger: bool,
    /// How many connections can be open at once.
    pub connections: u16,
}

impl MessageRouter {
    /// The object, for a device that has these other objects. Its attributes can only be read. Attribute 3, the number
    /// of open connections, is 0 until the device writes it.
    ///
    /// # Errors
    ///
    /// `AllocError` if memory is refused.
    pub fn object(&self, alloc: Global, others: &[ObjectConfig]) -> Result<ObjectConfig, AllocError>
        requires { length others.now ≤ OBJECT_LIMIT }
        ensures { IfOk result (IsStandard 2
            (router_attributes (classes_of self.now.counter self.now.ledger (map (λ o. o.class) others.now))
            self.now.connections)) }
    {
        let classes = self.classes(alloc, others)?;
        let mut attributes = Vec::new(alloc);
        push_fixed(&mut attributes, 1, list_value(alloc, &classes)?)?;
        push_fixed(
            &mut attributes,
            2,
            Vec::from_slice(alloc, &self.connections.to_le_bytes())?,
        )?;
        push_fixed(
            &mut attributes,
            3,
            Vec::from_slice(alloc, &0u16.to_le_bytes())?,
        )?;
        Ok(ObjectConfig {
            class: MESSAGE_ROUTER,
            instance: 1,
            standard: true,
            name: None,
            attributes,
            services: Vec::new(alloc),
            lists: false,
        })
    }

    /// The classes that answer, rising.
    fn classes(&self, alloc: Global, others: &[ObjectConfig]) -> Result<Vec<u16>, AllocError>
        requires { length others.now ≤ OBJECT_LIMIT }
        ensures classes { IfOk result (λ classes. classes.items
            ≡ classes_of self.now.counter self.now.ledger (map (λ o. o.class) others.now)) }
        ensures few { IfOk result (λ classes. length classes.items ≤ CLASS_LIMIT) }
    {
        let mut classes = self.own_classes(alloc)?;
        for object in others {
            put(&mut classes, object.class)?;
        }
        Ok(classes)
    }

    /// The classes that the device has itself, rising.
    fn own_classes(&self, alloc: Global) -> Result<Vec<u16>, AllocError>
        ensures classes { IfOk result (λ classes. classes.items ≡ own_classes self.now.counter self.now.ledger) }
        ensures few { IfOk result (λ classes. length classes.items ≤ 6) }
    {
        let mut classes = Vec::from_slice(
            alloc,
            &[IDENTITY, MESSAGE_ROUTER, ASSEMBLY, CONNECTION_MANAGER],
        )?;
        if self.counter {
            classes.push(COUNTER)?;
        }
        if self.ledger {
            classes.push(LEDGER)?;
        }
        Ok(classes)
    }
}

/// Puts a class into a list that rises, unless it is there.
fn put(classes: &mut Vec<u16>, class: u16) -> Result<(), AllocError>
    ensures put { OnOk result (classes.new.items ≡ with_class class classes.old.items) }
    ensures one { OnOk result (length classes.new.items ≤ length classes.old.items + 1) }
{
    if let Some(index) = index_for(classes, class) {
        classes.insert(index, class)?;
    }
    Ok(())
}

/// The index before which a class is put. `None` if it is there.
fn index_for(classes: &[u16], class: u16) -> Option<usize>
    ensures within { IfSome result (λ i. i ≤ length classes.now) }
    ensures placed { placed result class classes.now ≡ with_class class classes.now }
{
    for (i, other) in classes.iter().enumerate() {
        if class < *other {
            return Some(i);
        }
        if *other == class {
            return None;
        }
    }
    Some(classes.len())
}

/// The value of the object list: the number of classes, then the classes.
fn list_value(alloc: Global, classes: &[u16]) -> Result<Vec<u8>, AllocError>
    requires { length classes.now ≤ CLASS_LIMIT }
    ensures value { IfOk result (λ bytes. bytes.items ≡ object_list classes.now) }
    ensures short { IfOk result (λ bytes. length bytes.items ≤ 500) }
{
    let count = classes.len() as u16;
    let mut bytes = Vec::from_slice(alloc, &count.to_le_bytes())?;
    for class in classes {
        bytes.extend_from_slice(&class.to_le_bytes())?;
    }
    Ok(bytes)
}

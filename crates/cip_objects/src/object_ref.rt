//! The object that a path leads to. Its class and instance are looked up once (Volume 1, object model).
ghost use Rattle.std.specs.Prelude.{◌≡◌};
ghost use Rattle.cip_objects.specs.Service.{service_in};

use crate::assembly::Span;
use crate::class::Class;
use crate::service::Service;

/// The services of a class itself.
static CLASS_SERVICES: [Service; 1] = [Service::GetAttributeSingle];

/// The services of the Identity object's instance.
static IDENTITY_SERVICES: [Service; 3] = [
    Service::GetAttributesAll,
    Service::GetAttributeList,
    Service::GetAttributeSingle,
];

/// The services of each assembly.
static ASSEMBLY_SERVICES: [Service; 5] = [
    Service::GetAttributeList,
    Service::GetAttributeSingle,
    Service::SetAttributeSingle,
    Service::GetMember,
    Service::SetMember,
];

/// The services of the counter's instance. Its own come first, as they are found soonest.
static COUNTER_SERVICES: [Service; 5] = [
    Service::Add,
    Service::Clear,
    Service::GetAttributeList,
    Service::GetAttributeSingle,
    Service::SetAttributeSingle,
];

/// The services of each application object.
static OBJECT_SERVICES: [Service; 4] = [
    Service::GetAttributesAll,
    Service::GetAttributeList,
    Service::GetAttributeSingle,
    Service::SetAttributeSingle,
];

/// The services for lists of attributes, of an assembly that has them.
static ASSEMBLY_LIST_SERVICES: [Service; 2] = [
    Service::SetAttributeList,
    Service::GetAttributesAll,
];

/// The same of an application object. Each of them has Get_Attributes_All.
static OBJECT_LIST_SERVICES: [Service; 1] = [Service::SetAttributeList];

/// The object that the class and the instance of a path lead to. If there is none, the path destination is unknown:
/// 0x05.
#[derive(Clone, Copy)]
pub(crate) enum ObjectRef {
    /// A class itself, at instance 0.
    Class(Class),
    /// The one instance of the Identity object.
    Identity,
    /// The assembly at this index, from 0.
    Assembly(usize),
    /// The one instance of the Connection Manager.
    ConnectionManager,
    /// The one instance of the counter.
    Counter,
    /// A class of application objects itself, at instance 0.
    ApplicationClass(u16),
    /// The application object at this index, from 0.
    Application(usize),
}

impl ObjectRef {
    ghost use Rattle.cip_objects.specs.ObjectRef.{usual_services, list_services};

    /// The object's services, without those for lists of attributes that it may have.
    #[inline(always)]
    fn services(self) -> &'static [Service]
        ensures { result.now ≡ usual_services self }
    {
        match self {
            ObjectRef::Class(_) | ObjectRef::ApplicationClass(_) => &CLASS_SERVICES,
            ObjectRef::Identity => &IDENTITY_SERVICES,
            ObjectRef::Assembly(_) => &ASSEMBLY_SERVICES,
            // The services of the Connection Manager belong to `cip_manager`.
            ObjectRef::ConnectionManager => &[],
            ObjectRef::Counter => &COUNTER_SERVICES,
            // An object's own services have no owner yet who executes them.
            ObjectRef::Application(_) => &OBJECT_SERVICES,
        }
    }

    /// The service with this code among these.
    #[inline(always)]
    pub(crate) fn usual_service(self, code: u8) -> Option<Service>
        ensures { result ≡ service_in code (usual_services self) }
    {
        service_in(code, self.services())
    }

    /// The service for lists of attributes with this code, of an object that has them.
    pub(crate) fn list_service(self, code: u8) -> Option<Service>
        ensures { result ≡ service_in code (list_services self) }
    {
        match self {
            ObjectRef::Assembly(_) => service_in(code, &ASSEMBLY_LIST_SERVICES),
            ObjectRef::Application(_) => service_in(code, &OBJECT_LIST_SERVICES),
            _ => None,
        }
    }
}

/// The path of a request, whose object was looked up.
#[derive(Clone, Copy)]
pub(crate) struct ResolvedPath {
    /// The object that class and instance lead to.
    pub(crate) object: ObjectRef,
    /// The attribute's number, if the path names one.
    pub(crate) attribute: Option<u16>,
    /// The member's number, if the path names one.
    pub(crate) member: Option<u16>,
}

/// A member of the data of an assembly.
#[derive(Clone, Copy)]
pub(crate) struct Member {
    /// The index of the assembly, from 0.
    pub(crate) assembly_index: usize,
    /// The bytes of the member in the assembly's data.
    pub(crate) span: Span,
}

/// An attribute that can be set.
#[derive(Clone, Copy)]
pub(crate) enum Settable {
    /// The data of an assembly.
    Data {
        /// The index of the assembly, from 0.
        assembly_index: usize,
        /// The size of the data in bytes.
        size: usize,
    },
    /// The counter's limit.
    Limit,
    /// An attribute of an application object.
    Attribute {
        /// The index of the object, from 0.
        object_index: usize,
        /// The attribute's number.
        number: u16,
    },
}

/// The service with this code, among these.
fn service_in(code: u8, services: &[Service]) -> Option<Service>
    ensures { result ≡ service_in code services.now }
{
    for service in services {
        if service.code() == code {
            return Some(*service);
        }
    }
    None
}

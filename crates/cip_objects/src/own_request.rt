//! Requests that the owner of the device executes: own services of application objects, and sets that need approval.
//! Text: docs/PROTOCOL.md, "Objects".
ghost use Rattle.std.specs.Prelude.{◌≡◌, ◌≤◌, ◌==◌, ◌||◌, length, option_map, true, IfSome, IfOk};
ghost use Rattle.cip_bytes.specs.Reading.{map_ok};
ghost use Rattle.cip_message.specs.Request.{view};
ghost use Rattle.std.specs.Option.{option_and_then};
ghost use Rattle.cip_objects.specs.OwnRequests.{asked_in, own_request, IsOwnAt, ask_set, ask_service};
ghost use Rattle.cip_objects.specs.OwnRequests.{checked_attribute, own_service, check_service, is_own_service};
ghost use Rattle.cip_objects.specs.OwnRequests.{asked_after, asked_of};

use crate::objects::Objects;
use crate::status::Refusal;
use cip_application::{SERVICE_DATA_LIMIT, ServiceConfig, ServiceKind, VALUE_LIMIT};
use cip_message::{Path, RequestView, read_path};

/// The common service that sets an attribute (Volume 1, common services).
const SET_ATTRIBUTE_SINGLE: u8 = 0x10;

/// A request that the owner of the device executes. Its data are lent from the bytes of the request.
///
/// ```
/// // 50 is an own service of instance 1 of class 768
/// let request = [0x32, 0x04, 0x21, 0x00, 0x00, 0x03, 0x24, 0x01, 0xe8, 0x03];
/// if let Some(Ok(asked)) = objects.own_request(&request) {
///     move_by(asked.data); // e8 03
/// }
/// ```
#[derive(Clone, Copy, Debug)]
pub struct OwnRequest<'a> {
    /// The object's class.
    pub class: u16,
    /// The object's instance number.
    pub instance: u32,
    /// The service: one of the object's own, 0x32 to 0x63, or Set_Attribute_Single (0x10).
    pub service: u8,
    /// The attribute, if the path names one. That of a set always does.
    pub attribute: Option<u16>,
    /// The data of the service, at most 480 bytes, or the value that is to be set, at most 500.
    pub data: &'a [u8],
    /// The most bytes of the reply's data, at most 480. A set has none.
    pub reply_limit: u16,
    /// How the service is executed. The owner is asked before a set.
    pub kind: ServiceKind,
}

impl Objects {
    /// What a request asks the owner of the device. `None` if the owner does not execute it: it leads to no application
    /// object, or it is neither an own service of that object nor a set of an attribute that is settable and checked.
    ///
    /// Nothing is executed and nothing changes. `execute` refuses each request for which this is not `None`. Allocates
    /// nothing.
    ///
    /// # Errors
    ///
    /// The refusal of a request that the owner is not asked about: `NotEnoughData` or `TooMuchData` if the data do not
    /// have the size of the service or of the value, and `InvalidAttributeValue` if the attribute may not have the
    /// value.
    pub fn own_request<'a>(&self, request: &'a [u8]) -> Option<Result<OwnRequest<'a>, Refusal>>
        ensures asked { option_map (map_ok asked_in) result ≡ own_request self.now request.now }
        ensures short { IfSome result (λ r. IfOk r (λ q. length q.data.now ≤ VALUE_LIMIT)) }
        ensures small { IfSome result (λ r. IfOk r (λ q. q.reply_limit ≤ SERVICE_DATA_LIMIT)) }
    {
        // Most devices have no application objects, and then this is all.
        if !self.has_application_objects() {
            return None;
        }
        let Ok(view) = RequestView::read(request) else {
            return None;
        };
        // Any other service is not looked up: most requests read.
        if !is_asked_service(view.service) {
            return None;
        }
        let Ok(path) = read_path(view.path) else {
            return None;
        };
        self.asked_of(view, path)
    }

    /// What a request with this path asks.
    fn asked_of<'a>(
        &self,
        request: RequestView<'a>,
        path: Path,
    ) -> Option<Result<OwnRequest<'a>, Refusal>>
        ensures asked { option_map (map_ok asked_in) result ≡ asked_of self.now (view request.entry) path }
        ensures short { IfSome result (λ r. IfOk r (λ q. length q.data.now ≤ VALUE_LIMIT)) }
        ensures small { IfSome result (λ r. IfOk r (λ q. q.reply_limit ≤ SERVICE_DATA_LIMIT)) }
    {
        let object_index = self.own_object(path.class, path.instance)?;
        if request.service == SET_ATTRIBUTE_SINGLE {
            return self.ask_set(object_index, request, path);
        }
        if is_own_service(request.service) {
            return self.ask_service(object_index, request, path);
        }
        None
    }

    /// What a Set_Attribute_Single of the application object at an index asks.
    fn ask_set<'a>(
        &self,
        object_index: usize,
        request: RequestView<'a>,
        path: Path,
    ) -> Option<Result<OwnRequest<'a>, Refusal>>
        requires { IsOwnAt self.now.shapes path.class path.instance object_index }
        ensures asked { option_map (map_ok asked_in) result
            ≡ option_map (ask_set (view request.entry) path)
            (option_and_then (checked_attribute self.now path.class path.instance) path.attribute) }
        ensures short { IfSome result (λ r. IfOk r (λ q. length q.data.now ≤ VALUE_LIMIT)) }
        ensures small { IfSome result (λ r. IfOk r (λ q. q.reply_limit ≤ SERVICE_DATA_LIMIT)) }
    {
        let checks = self.check_checked(object_index, path.attribute?, request.data)?;
        Some(asked_after(checks, request, path, ServiceKind::Asked, 0))
    }

    /// What an own service of the application object at an index asks.
    fn ask_service<'a>(
        &self,
        object_index: usize,
        request: RequestView<'a>,
        path: Path,
    ) -> Option<Result<OwnRequest<'a>, Refusal>>
        requires there { IsOwnAt self.now.shapes path.class path.instance object_index }
        requires own { is_own_service request.service ≡ true }
        ensures asked { option_map (map_ok asked_in) result
            ≡ option_map (ask_service (view request.entry) path)
            (own_service self.now.shapes path.class path.instance request.entry.service) }
        ensures short { IfSome result (λ r. IfOk r (λ q. length q.data.now ≤ VALUE_LIMIT)) }
        ensures small { IfSome result (λ r. IfOk r (λ q. q.reply_limit ≤ SERVICE_DATA_LIMIT)) }
    {
        let service = self.own_service(object_index, request.service)?;
        let checks = check_service(service, request.data);
        Some(asked_after(checks, request, path, service.kind, service.reply))
    }
}

/// Whether a service can be one that the owner executes.
fn is_asked_service(service: u8) -> bool
    ensures { result ≡ (service == 0x10) || is_own_service service }
{
    service == SET_ATTRIBUTE_SINGLE || is_own_service(service)
}

/// Whether a service is vendor or class specific: 0x32 to 0x63 (Volume 1, service codes).
fn is_own_service(service: u8) -> bool
    ensures { result ≡ is_own_service service }
{
    0x32 <= service && service <= 0x63
}

/// Checks the size of an own service's data.
fn check_service(service: ServiceConfig, data: &[u8]) -> Result<(), Refusal>
    ensures { result ≡ check_service service «data».now }
{
    if data.len() < usize::from(service.least) {
        return Err(Refusal::NotEnoughData);
    }
    if data.len() > usize::from(service.most) {
        return Err(Refusal::TooMuchData);
    }
    Ok(())
}

/// What a request asks after these checks.
fn asked_after<'a>(
    checks: Result<(), Refusal>,
    request: RequestView<'a>,
    path: Path,
    kind: ServiceKind,
    reply_limit: u16,
) -> Result<OwnRequest<'a>, Refusal>
    ensures asked { map_ok asked_in result ≡ asked_after checks (view request.entry) path kind reply_limit }
    ensures same { IfOk result (λ q. q.data.now ≡ request.entry.data.now) }
    ensures limit { IfOk result (λ q. q.reply_limit ≡ reply_limit) }
{
    checks?;
    Ok(OwnRequest {
        class: path.class,
        instance: path.instance,
        service: request.service,
        attribute: path.attribute,
        data: request.data,
        reply_limit,
        kind,
    })
}

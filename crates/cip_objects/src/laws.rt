//! What holds of every execution of a request. The functions do nothing: their clauses are the laws.

ghost use Rattle.cip_objects.specs.Laws.{too_large_law, refused_law, any_max_size_law, changes_fit_law};
ghost use Rattle.cip_objects.specs.Laws.{get_after_set_law, set_leaves_others_law, unsettable_law};
ghost use Rattle.cip_objects.specs.Lists.{list_law};
ghost use Rattle.cip_objects.specs.SetListLaws.{set_list_law};
ghost use Rattle.cip_objects.specs.Members.{member_after_set_law, set_member_leaves_others_law, whole_law};
ghost use Rattle.cip_message.specs.Router.{RepliesWellFormed};
ghost use Rattle.cip_objects.specs.Contents.{Contents};
ghost use Rattle.cip_objects.specs.Execution.{exec};
ghost use Rattle.cip_objects.specs.PacketLaws.{packet_law, singles_law, routed_refused_law, others_law};
ghost use Rattle.cip_objects.specs.Run.{counter_law};
ghost use Rattle.cip_objects.specs.ChangesRun.{changes_law};
ghost use Rattle.cip_objects.specs.ObjectList.{object_list_law};
ghost use Rattle.cip_objects.specs.OwnRequests.{own_is_refused_law, approved_is_stored_law, approved_leaves_others_law};

/// If a reply is too large, the object map is unchanged.
pub fn too_large_changes_nothing()
    ensures { too_large_law }
{}

/// A reply with any general status but success (0x00) and attribute list error (0x0a) has no data, and the object
/// map is unchanged.
pub fn refused_changes_nothing()
    ensures { refused_law }
{}

/// Each reply has the head of a reply, its service answers the request's, and it has at most `max_size` bytes.
pub fn replies_are_well_formed()
    ensures { RepliesWellFormed (λ (m : Contents) max_size text. (exec m max_size text).answer) }
{}

/// If `max_size` is 8 or more, the object map after a request does not depend on it. That after a Set_Attribute_List depends
/// on whether its reply fits.
pub fn any_max_size()
    ensures { any_max_size_law }
{}

/// If `max_size` is 8 or more, the reply of each service that changes the object map fits, but for Set_Attribute_List.
pub fn changes_fit()
    ensures { changes_fit_law }
{}

/// The reply to a Get_Attribute_List has, for each attribute, what Get_Attribute_Single answers for it.
pub fn list_is_gets()
    ensures { list_law }
{}

/// Set_Attribute_List is Set_Attribute_Single of each attribute, one after another: the object map afterwards is the same,
/// and the reply has, for each attribute, the status of the reply to that request.
pub fn set_list_is_sets()
    ensures { set_list_law }
{}

/// After a Set_Attribute_Single that succeeded, Get_Attribute_Single answers the value that was set.
pub fn get_after_set()
    ensures { get_after_set_law }
{}

/// After a Set_Member that succeeded, Get_Member of the same member answers the value that was set.
pub fn member_after_set()
    ensures { member_after_set_law }
{}

/// A Set_Attribute_Single at one key does not change any other.
pub fn set_leaves_others()
    ensures { set_leaves_others_law }
{}

/// A Set_Member does not change other members, of the same assembly or of others.
pub fn set_member_leaves_others()
    ensures { set_member_leaves_others_law }
{}

/// Whatever requests are executed, the size of each assembly's data remains the sum of its member sizes.
pub fn data_stay_whole()
    ensures { whole_law }
{}

/// Whatever requests are executed, attributes that are not settable do not change, except by an Add or a Clear of the
/// counter: both may change its value, and an Add its additions.
pub fn unsettable_stays()
    ensures { unsettable_law }
{}

/// Whatever requests are executed, the changes of an assembly count exactly the requests that wrote its data,
/// modulo 2^32.
pub fn changes_count_writes()
    ensures { changes_law }
{}

/// Whatever requests are executed, the counter's value is the sum of the additions that were accepted since the
/// last Clear, and never over its limit. Its additions count those that were accepted, modulo 2^32.
pub fn counter_counts()
    ensures { counter_law }
{}

/// The objects themselves refuse each request that the owner of the device executes: an own service is not supported
/// (0x08), and a checked attribute is not settable (0x0e). Nothing changes.
pub fn own_is_refused()
    ensures { own_is_refused_law }
{}

/// A set that the owner was asked about and approved stores the value, and is counted.
pub fn approved_is_stored()
    ensures { approved_is_stored_law }
{}

/// A set that the owner approved does not change any other attribute.
pub fn approved_leaves_others()
    ensures { approved_leaves_others_law }
{}

/// The objects after a packet are those after its requests, executed one after another, each with what room is left for
/// its reply, and the replies are theirs.
pub fn packet_is_its_requests()
    ensures { packet_law }
{}

/// Whatever requests are executed, packets among them: the objects are those after single requests, one after another.
/// So each law over every run of requests holds with packets among them.
pub fn packets_amount_to_requests()
    ensures { singles_law }
{}

/// Every request but a packet is executed as it is, and a packet too if the device does not have the Message Router.
pub fn others_are_no_packets()
    ensures { others_law }
{}

/// A reply with any general status but success (0x00), attribute list error (0x0a) and embedded service error (0x1e)
/// leaves the object map unchanged, whether the request is a packet or not.
pub fn refused_packets_change_nothing()
    ensures { routed_refused_law }
{}

/// The object list of the Message Router has exactly the classes that answer: those of whose instances one has services,
/// and that of the command ledger if the device has it.
pub fn object_list()
    ensures { object_list_law }
{}

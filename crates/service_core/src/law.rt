ghost use Rattle.std.specs.Prelude.{◌≡◌, ℕ, Bool, List, Ok};
ghost use Rattle.service_core.specs.Prelude.{JobStep, StepReply};
ghost use Rattle.service_core.specs.declared.device.Device.{Device};
ghost use Rattle.service_core.specs.declared.put_reply.PutReply.TheVariants.{Recorded};
ghost use Rattle.service_core.specs.Service.{ServiceState, empty_service};
ghost use Rattle.service_core.specs.Calls.{IsNextStep, IsPut};
ghost use Rattle.service_core.specs.Run.{Call, Run};
ghost use Rattle.service_core.specs.Headline.{AreOwnJournals, AreParted, AreToldTheSame, Counts, EachIsAlone, HaveSameStrip, IsBook};
ghost use Rattle.service_core.specs.OwnEvents.{own_events};
ghost use Rattle.service_core.specs.Owners.{HasOneOwner};

/// The main theorem. It holds for any calls of a device's core, in any order, with jobs out for any
/// time and put, late or never. Each tenancy's replies are those of the service for a single user
/// to its own events, on a device of its strip's size; the tenancy is in that service's state, and
/// its journal is those events with their replies. The strips of the live tenancies are separated.
/// A tenancy owns a resource exactly while it is live and its state alone has the resource routed,
/// at its strip's offset; nothing has two owners. A look at the book is also a call, and lists
/// exactly that.
pub fn headline()
    ensures alone { (device : Device) (calls : List Call) (state : ServiceState) →
        Run (empty_service device) calls state → EachIsAlone device calls state }
    ensures journals { (device : Device) (calls : List Call) (state : ServiceState) →
        Run (empty_service device) calls state → AreOwnJournals calls state }
    ensures parted { (device : Device) (calls : List Call) (state : ServiceState) →
        Run (empty_service device) calls state → AreParted device state }
    ensures book { (device : Device) (calls : List Call) (state : ServiceState) →
        Run (empty_service device) calls state → IsBook device calls state }
    ensures exact { (device : Device) (calls : List Call) (state : ServiceState) →
        Run (empty_service device) calls state → HasOneOwner state }
{}

/// Compares two runs on devices of one architecture and one number of rows. The devices may differ
/// in columns, and strips may be at any offsets beside any others. If two tenancies, one of each
/// run, have strips of one width and equal events, they got equal replies and are in equal states.
pub fn same_alone()
    ensures { (device other : Device) (calls other_calls : List Call)
        (state other_state : ServiceState) (id other_id : ℕ)
        → Run (empty_service device) calls state →
        Run (empty_service other) other_calls other_state →
        HaveSameStrip device state id other other_state other_id →
        own_events id calls ≡ own_events other_id other_calls →
        AreToldTheSame state id calls other_state other_id other_calls }
{}

/// A step that is put counts exactly if it is the next one of its tenancy's running job: of that
/// tenancy and generation, with that number, and made from equal sources, by value. Any other step
/// is stale.
pub fn law_of_puts()
    ensures { (device : Device) (calls : List Call) (old new : ServiceState) (done : JobStep)
        (foreign : Bool) (reply : StepReply) → Run (empty_service device) calls old →
        IsPut old done foreign (Ok (Recorded reply)) new → Counts reply (IsNextStep old done) }
{}

//! The long-lived command `serve`.

ghost use Rattle.std.specs.Prelude.{◌≡◌, ◌<◌, ◌≤◌, [], IfOk, IfErr, IfSome, IfNone, IsTrue, MatchResult};
ghost use Rattle.recline.specs.Outcome.{IsOpened};
ghost use Rattle.recline.specs.Lasting.{AreLastingLimits, AreOneRun, IsLastingService, IsNextDesk, IsStoppedService, LastsInPart, LastsOn, LastsToEnd};
ghost use Rattle.recline.specs.working.Lasting.{IsLastFront, MayCome};

use crate::door::{Bell, Door};
use crate::farewell::take_leave;
use crate::generation::{House, Rules, Settled, Unsettled, next_generation, unserved};
use crate::host::ServiceRuntime;
use crate::room::Halt;
use crate::serving::{Stop, line_of, write_end, write_port};
use crate::telling::{tell, tell_unopened};
use client_link::{Link, ServiceLink};
use desk::{Desk, DeskFault};
use line_disk::Disk;
use std::alloc::Global;
use std::sync::atomic::AtomicU64;
use std::sync::{Mutex, Wait};
use std::time::Clock;

/// How many workers a long-lived service has, and how long a client may rest.
#[derive(Clone, Copy)]
pub struct LastingService {
    /// The number of workers, 1 to 64.
    pub workers: u64,
    /// How many seconds a client may rest from one answer to the next, at least 1, if there is a limit.
    pub idle: Option<u64>,
}

impl LastingService {
    /// The service of these numbers, if they are within their limits.
    pub fn new(workers: u64, idle: Option<u64>) -> Option<LastingService>
        ensures some { IfSome result (λ s. IsLastingService s × (s.workers ≡ workers) × (s.idle ≡ idle)) }
        ensures none { IfNone result (¬ AreLastingLimits workers idle) }
    {
        let waits = match idle {
            Some(seconds) => seconds > 0,
            None => true,
        };
        if workers > 0 && workers <= 64 && waits {
            Some(LastingService { workers, idle })
        } else {
            None
        }
    }
}

/// Whether the service is to end.
fn is_over<K: ServiceLink, T: Door<K>, R: Wait>(rt: &R, door: &Mutex<T>) -> bool
    ensures { IsTrue result → ∥ ((d : T) × T.is_over d) ∥₁ }
{
    door.lock(rt).is_over()
}

/// Whether a door failed for good.
fn has_failed<K: ServiceLink, T: Door<K>, R: Wait>(rt: &R, door: &Mutex<T>) -> bool
    ensures { IsTrue result → ∥ ((d : T) × T.has_failed d) ∥₁ }
{
    door.lock(rt).has_failed()
}

/// What comes after a coordinator.
#[derive(Clone, Copy)]
pub(crate) enum Next {
    /// Another one.
    Coordinator,
    /// The end of the service.
    End,
    /// The service stops for this.
    Stop(Stop),
}

/// What comes after a coordinator that does not end the service: another one, if it made a turn. After one that made none, which happens only if
/// memory is missing, the next one would make none either.
fn another<D: Disk, K: ServiceLink, T: Door<K>>(desk: &Desk<D>) -> Next
    ensures { MayCome T.is_over T.has_failed desk.now.held.stopped desk.now.turns result }
{
    if desk.turns().len() > 0 {
        Next::Coordinator
    } else {
        Next::Stop(Stop::Memory)
    }
}

/// What comes after a coordinator whose workers ended for this, with this desk. What the workers say of the file and of the door is not relied on.
fn next_after<D: Disk, K: ServiceLink, T: Door<K>, R: Wait>(
    rt: &R,
    door: &Mutex<T>,
    halt: Halt,
    desk: &Desk<D>,
) -> Next
    ensures { MayCome T.is_over T.has_failed desk.now.held.stopped desk.now.turns result }
{
    match halt {
        Halt::Renewal => another::<D, K, T>(desk),
        Halt::Memory => Next::Stop(Stop::Memory),
        Halt::Over => if desk.stopped() {
            Next::Stop(Stop::Device)
        } else if is_over(rt, door) {
            Next::End
        } else {
            another::<D, K, T>(desk)
        },
        Halt::Device => if desk.stopped() {
            Next::Stop(Stop::Device)
        } else if has_failed(rt, door) {
            Next::Stop(Stop::Device)
        } else {
            another::<D, K, T>(desk)
        },
    }
}

/// Why a service stops whose desk does not go on.
fn stop_for(fault: DeskFault) -> Stop
    ensures device { fault ≡ DeskFault.Device → result ≡ Stop.Device }
    ensures memory { fault ≡ DeskFault.Memory → result ≡ Stop.Memory }
{
    match fault {
        DeskFault::Device => Stop::Device,
        _ => Stop::Memory,
    }
}

/// How a service goes on: by the next coordinator over this desk; or how it ended, with this front and disk.
type Onward<D, K, W> = Result<(Desk<D>, House<D, K, W>), (u32, D)>;

/// Takes leave of the clients of a house.
fn leave_house<D: Disk, K: ServiceLink + Drop, W: Link + Drop, R: Wait + Clock>(
    rt: &R,
    house: House<D, K, W>,
) {
    let House {
        lodgings,
        due: _,
        seconds: _,
        counted: _,
        watched: _,
    } = house;
    take_leave(rt, lodgings)
}

/// Serves clients over a desk, and goes on or ends with what is left.
fn go_on<
    D: Disk + Send + Drop,
    K: ServiceLink + Send + Drop,
    T: Door<K> + Send,
    B: Bell + Sync,
    W: Link + Send + Drop,
    R: ServiceRuntime,
>(
    rt: &R,
    alloc: Global,
    desk: Desk<D>,
    house: House<D, K, W>,
    door: &Mutex<T>,
    bell: &B,
    rules: Rules,
    closed: &AtomicU64,
) -> Result<Onward<D, K, W>, Unsettled<D>>
    requires fresh { desk.turns ≡ [] }
    requires workers { (0 < rules.workers) × (rules.workers ≤ 64) }
    ensures fresh { IfOk result (λ onward. IfOk onward (λ next. next.0.turns ≡ [])) }
    ensures next { IfOk result (λ onward. IfOk onward (λ next. (first : D) → IsNextDesk D.keeps D.view K.told first desk → IsNextDesk D.keeps D.view K.told first next.0)) }
    ensures ended { IfOk result (λ onward. IfErr onward (λ end. (first : D) → IsNextDesk D.keeps D.view K.told first desk → IsLastFront T.is_over D.keeps D.view K.told first end.1 end.0)) }
    ensures stopped { IfErr result (λ u. (first : D) → IsNextDesk D.keeps D.view K.told first desk → IsStoppedService T.has_failed D.keeps D.view K.told first u.disk u.stop) }
{
    let Settled {
        house,
        halt,
        desk: ended,
    } = match next_generation(rt, alloc, desk, house, door, bell, rules, closed) {
        Ok(settled) => settled,
        Err(unsettled) => return Err(unsettled),
    };
    match next_after(rt, door, halt, &ended) {
        Next::Coordinator => match ended.renewed() {
            Ok(renewed) => Ok(Ok((renewed, house))),
            Err((fault, disk)) => {
                leave_house(rt, house);
                Err(Unsettled {
                    stop: stop_for(fault),
                    disk,
                })
            }
        },
        Next::End => {
            leave_house(rt, house);
            let front = ended.front();
            let disk = ended.close();
            Ok(Err((front, disk)))
        }
        Next::Stop(stop) => {
            leave_house(rt, house);
            let disk = ended.close();
            Err(Unsettled { stop, disk })
        }
    }
}

/// Serves clients over a desk, by one coordinator after the other, until the service is to end. Answers the front and the disk.
fn go_on_to_end<
    D: Disk + Send + Drop,
    K: ServiceLink + Send + Drop,
    T: Door<K> + Send,
    B: Bell + Sync,
    W: Link + Send + Drop,
    R: ServiceRuntime,
>(
    rt: &R,
    alloc: Global,
    desk: Desk<D>,
    house: House<D, K, W>,
    door: &Mutex<T>,
    bell: &B,
    rules: Rules,
    closed: &AtomicU64,
) -> Result<(u32, D), Unsettled<D>>
    requires fresh { desk.turns ≡ [] }
    requires workers { (0 < rules.workers) × (rules.workers ≤ 64) }
    ensures { (first : D) → IsNextDesk D.keeps D.view K.told first desk → MatchResult result (λ end. IsLastFront T.is_over D.keeps D.view K.told first end.1 end.0) (λ u. IsStoppedService T.has_failed D.keeps D.view K.told first u.disk u.stop) }
{
    let mut desk = desk;
    let mut house = house;
    for _ in rt.forever() {
        match go_on(rt, alloc, desk, house, door, bell, rules, closed) {
            Ok(Ok((next_desk, next_house))) => {
                desk = next_desk;
                house = next_house;
            }
            Ok(Err(end)) => return Ok(end),
            Err(unsettled) => return Err(unsettled),
        }
    }
    Err(unserved(Stop::Memory, desk))
}

/// Prints the port, serves clients over a desk until the service is to end, and prints the front. Answers the disk.
fn serve_from<
    D: Disk + Send + Drop,
    K: ServiceLink + Send + Drop,
    T: Door<K> + Send + Drop,
    B: Bell + Sync,
    W: Link + Send + Drop,
    O: Link,
    R: ServiceRuntime,
>(
    rt: &R,
    alloc: Global,
    desk: Desk<D>,
    door: T,
    bell: &B,
    port: u16,
    rules: Rules,
    output: &mut O,
    warnings: W,
) -> Result<D, Unsettled<D>>
    requires fresh { desk.turns ≡ [] }
    requires workers { (0 < rules.workers) × (rules.workers ≤ 64) }
    ensures { (first : D) → IsOpened D.keeps D.view first desk → MatchResult result (λ disk. LastsToEnd T.is_over D.keeps D.view K.told port first disk (O.told output.old) (O.told output.new)) (λ u. LastsInPart T.has_failed D.keeps D.view K.told port first u.disk (O.told output.old) (O.told output.new) u.stop) }
{
    let Ok(house) = House::new(alloc, warnings) else {
        return Err(unserved(Stop::Memory, desk));
    };
    let Ok(()) = write_port(output, port) else {
        return Err(unserved(Stop::Device, desk));
    };
    let door = Mutex::new(door);
    let closed = AtomicU64::new(0);
    match go_on_to_end(rt, alloc, desk, house, &door, bell, rules, &closed) {
        Ok((front, disk)) => match write_end(output, front) {
            Ok(()) => Ok(disk),
            Err(_) => Err(Unsettled {
                stop: Stop::Device,
                disk,
            }),
        },
        Err(unsettled) => Err(unsettled),
    }
}

/// The long-lived command `serve`: opens the record file on a disk, prints the port, and serves the clients that come in at a door until that
/// says that the service is to end. Each client rests at the door while it has nothing to say. One coordinator follows the other. At its end each
/// one compares what its clients were shown with its turns. At last the number of accepted reports is printed. Notices for the operator are
/// printed on a link of their own while the service runs. Answers the status of the process, and the disk.
pub fn serve_lasting<
    D: Disk + Send + Drop,
    K: ServiceLink + Send + Drop,
    T: Door<K> + Send + Drop,
    B: Bell + Sync,
    W: Link + Send + Drop,
    O: Link,
    F: Link,
    R: ServiceRuntime,
>(
    rt: &R,
    alloc: Global,
    door: T,
    bell: &B,
    port: u16,
    disk: D,
    service: LastingService,
    output: &mut O,
    faults: &mut F,
    warnings: W,
) -> (u8, D)
    requires { IsLastingService service }
    ensures { LastsOn T.is_over T.has_failed D.keeps D.view D.failed K.told O.told F.told port disk result.1 output.old output.new faults.old faults.new result.0 }
{
    let rules = Rules {
        workers: service.workers as usize,
        idle: service.idle,
    };
    match Desk::open(alloc, disk) {
        Ok(desk) => match serve_from(rt, alloc, desk, door, bell, port, rules, output, warnings) {
            Ok(disk) => (0, disk),
            Err(Unsettled { stop, disk }) => {
                tell(faults, line_of(stop));
                (3, disk)
            }
        },
        Err((fault, disk)) => {
            tell_unopened(faults, fault);
            (3, disk)
        }
    }
}

/// Laws of generations: however many coordinators followed one another, their turns are one run.
pub fn coordinators_are_one_run<D: Disk, K: Link>()
    ensures { AreOneRun D.keeps D.view K.told }
{}

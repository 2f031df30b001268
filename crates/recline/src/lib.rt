//! The command `run`, which is one session with a client over a record file, the command `serve`, which serves many over one, the command
//! `check`, which checks a certificate over one, the commands `line` and `garbage`, which ask one question over the bytes of one, the command
//! `show`, which tells what these bytes are, the commands `drive` and `draw`, which stamp the steps of a script and draw them, or what the bytes
//! of a record file say, and the command `explain`, which says of lines what they are.
#![tactic(auto)]

mod asking;
mod checking;
mod clients;
mod commented;
mod copied;
mod crew;
mod door;
mod drawing;
mod driving;
mod earlier;
mod escaping;
mod explaining;
mod farewell;
mod generation;
mod host;
mod input_end;
mod lasting;
mod notices;
mod room;
mod running;
mod serving;
mod showing;
mod stir;
mod telling;
mod watching;

pub use asking::{Question, ask_on};
pub use checking::check_on;
pub use clients::ClientSource;
pub use commented::ScriptForm;
pub use copied::copy_of;
pub use door::{Bell, Door, Happened, MOST_CLIENTS, PollerBell, TcpDoor};
pub use drawing::{draw_on, draw_records_on};
pub use driving::drive_on;
pub use earlier::at_front;
pub use explaining::explain_on;
pub use host::ServiceRuntime;
pub use input_end::UntilInputEnds;
pub use lasting::{LastingService, coordinators_are_one_run, serve_lasting};
pub use notices::{MOST_LINES, MOST_PROCESSES, is_near};
pub use running::{run_flushing, run_on, run_over};
pub use serving::{Service, serve_on, serve_until};
pub use session::{FlushPolicy, Unwatched, Watch};
pub use showing::{Form, show_front_on, show_on};

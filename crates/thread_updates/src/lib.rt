// A thread with other fields: an updater for each.
#![tactic(auto)]

ghost use Rattle.std.specs.Prelude.{◌≡◌};
ghost use Rattle.thread.specs.Thread.{with_blocked, with_left, with_server, with_run};

use sporadic::Server;
use thread::Thread;

// A thread that is blocked (1) or runnable (0).
pub fn with_blocked(t: Thread, blocked: u8) -> Thread
    ensures { result ≡ with_blocked blocked t }
{
    Thread { blocked, ..t }
}

// A thread with another quantum left.
pub fn with_left(t: Thread, left: u64) -> Thread
    ensures { result ≡ with_left left t }
{
    Thread { left, ..t }
}

// A thread with another server.
pub fn with_server(t: Thread, v: Server) -> Thread
    ensures { result ≡ with_server v t }
{
    Thread { server: v, ..t }
}

// A thread with another run time, quantum left and server.
pub fn with_run(t: Thread, total: u64, left: u64, v: Server) -> Thread
    ensures { result ≡ with_run total left v t }
{
    Thread {
        total,
        left,
        server: v,
        ..t
    }
}

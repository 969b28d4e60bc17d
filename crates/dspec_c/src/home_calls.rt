//! The exports that bring a CPU and the consumer home, and that let go what a handle holds.

ghost use Rattle.std.specs.Prelude.{◌≡◌, false};
ghost use Rattle.dspec_c.specs.{Handles.held_in, Handles.is_full, SessionCalls.HomeAnswers, SessionCalls.is_consumer_in, SessionCalls.is_cpu_in};

use crate::handle::Handle;
use crate::held::HandleValue;
use crate::statuses::{BAD_HANDLE, OK};
use std::alloc::Global;

/// Sends home what a handle holds, where that is of this kind, and makes no other call of it; else the handle has what it had.
macro_rules! home {
    ($alloc:ident, $handle:ident as $kind:ident) => {{
        let Some((held, room)) = $handle.take($alloc) else {
            return BAD_HANDLE;
        };
        match held {
            HandleValue::$kind(out) => {
                drop(out.go_home());
                OK
            }
            other => {
                $handle.put(room, other);
                BAD_HANDLE
            }
        }
    }};
}

/// Gives a CPU back to its session.
#[unsafe(no_mangle)]
pub extern "C" fn dspec_cpu_home(alloc: Global, cpu: &mut Handle) -> u32
    ensures { HomeAnswers (is_cpu_in (held_in cpu.old)) cpu.old result cpu.new }
{
    home!(alloc, cpu as Cpu)
}

/// Gives the consumer back to its session.
#[unsafe(no_mangle)]
pub extern "C" fn dspec_consumer_home(alloc: Global, consumer: &mut Handle) -> u32
    ensures { HomeAnswers (is_consumer_in (held_in consumer.old)) consumer.old result consumer.new }
{
    home!(alloc, consumer as Consumer)
}

/// Lets go what the handle holds, of which a CPU or the consumer goes home; an empty one stays empty.
#[unsafe(no_mangle)]
pub extern "C" fn dspec_drop(alloc: Global, handle: &mut Handle)
    ensures { is_full handle.new ≡ false }
{
    let Some((held, _room)) = handle.take(alloc) else {
        return;
    };
    held.let_go();
}

// The start of a sidecar.
ghost use Rattle.std.specs.Prelude.{◌≡◌, ◌<◌, ◌≤◌, List, Result, Err, IfOk};
ghost use Rattle.part_model.specs.Settings.{AreShallow};
ghost use Rattle.app_texts.specs.declared.config.AppConfig.{AppConfig};
ghost use Rattle.wire_fields.specs.Parts.{boot};
ghost use Rattle.frame_wire.specs.declared.frame.Frame.TheVariants as frames;
ghost use Rattle.frame_wire.specs.Frames.{payload};
ghost use Rattle.exchanges.specs.Exchanges.{Exchange, Dialling};
ghost use Rattle.exchanges.specs.Replies.{place_at};
ghost use Rattle.sidecar_start.specs.declared.end.StartEnd.{StartEnd};
ghost use Rattle.sidecar_start.specs.Tries.{IsRun};
ghost use Rattle.sidecar_start.specs.Configuring.{ConfigCarries};
ghost use Rattle.sidecar_start.specs.Starting.{ByConfig, IsStart};

use crate::booting::draw_boot;
use crate::configuring::ask_config;
use crate::end::StartEnd;
use crate::hosting::{Started, make_started};
use crate::words::StartWords;
use actor_ports::{Clock, Dial};
use std::alloc::Global;
use std::sync::Wait;

/// The start of a sidecar whose boot was drawn.
fn start_with<R: Wait, L: Dial, K: Clock>(
    rt: &R,
    alloc: Global,
    dialler: &mut L,
    clock: &mut K,
    words: &StartWords,
    drawn: u64,
) -> Result<Started, StartEnd>
    requires { boot.Fits drawn }
    ensures asks { (told : Result AppConfig StartEnd)
        × (xs : List Exchange)
        × IsRun (ConfigCarries words.now.app_at) (place_at words.now.app_at) xs told
        × ByConfig words.now drawn told result
        × Dialling xs (L.dialled dialler.old) (L.dialled dialler.new) (L.dial_faults dialler.old) (L.dial_faults dialler.new) }
    ensures fits { IfOk result (λ s. payload.Fits (frames.Register s.host)) }
    ensures shallow { IfOk result (λ s. AreShallow s.kinds) }
    ensures clock { K.shown clock.old ≤ K.shown clock.new }
{
    match ask_config(rt, alloc, dialler, clock, &words.app_at) {
        Err(end) => Err(end),
        Ok(config) => make_started(alloc, words, drawn, config),
    }
}

/// Starts a sidecar: dials the store and asks it for a boot, then dials the application and asks it for its
/// configuration. A link that failed, or an answer of the store without a reading, is tried again after 1,000 ms by the
/// clock, without a limit; a dial that failed is the end. No port is bound, and each link is given back.
pub fn start<R: Wait, L: Dial, K: Clock>(
    rt: &R,
    alloc: Global,
    dialler: &mut L,
    clock: &mut K,
    words: &StartWords,
) -> Result<Started, StartEnd>
    ensures starts { (xs : List Exchange)
        × IsStart words.now xs result
        × Dialling xs (L.dialled dialler.old) (L.dialled dialler.new) (L.dial_faults dialler.old) (L.dial_faults dialler.new) }
    ensures fits { IfOk result (λ s. payload.Fits (frames.Register s.host)) }
    ensures shallow { IfOk result (λ s. AreShallow s.kinds) }
    ensures fault { result ≡ Err StartEnd.DialFault → L.dial_faults dialler.old < L.dial_faults dialler.new }
    ensures clock { K.shown clock.old ≤ K.shown clock.new }
{
    match draw_boot(rt, alloc, dialler, clock, words) {
        Err(end) => Err(end),
        Ok(drawn) => start_with(rt, alloc, dialler, clock, words, drawn),
    }
}

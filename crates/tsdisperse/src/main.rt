// tsdisperse: makes whitened transport packets of its standard input and writes them to standard output; with --back it
// takes whitened packets and writes their payloads, filling zeros included.
#![tactic(auto)]

use programs::inner::{Stop, fill, only_flag, write_front};
use std::io;

// Writes the packets of a payload, whitened from the beginning of a group on.
fn send(rt: &HostRuntime, payload: &mut [u8], out: &mut [u8]) -> Result<(), Stop> {
    let count = ts::ts_packetize_dispersed(payload, out)?;
    write_front(rt, count, out)
}

// Writes the payloads of whitened packets that begin a group.
fn take_back(rt: &HostRuntime, packets: &mut [u8], out: &mut [u8]) -> Result<(), Stop> {
    ts::ts_energy_disperse(packets)?;
    let count = ts::ts_depacketize(packets, out)?;
    write_front(rt, count, out)
}

// Takes the input group by group, and then its last part, each by a step; an empty input is a part too. No run uses up
// its turns.
fn run<F: Fn(&HostRuntime, &mut [u8], &mut [u8]) -> Result<(), Stop>>(
    rt: &HostRuntime,
    step: F,
    input: &mut [u8],
    out: &mut [u8],
) -> Result<(), Stop>
    requires { F.IsAlwaysCallable step }
{
    for turn in 0..u64::MAX {
        let n = fill(rt, input).map_err(Stop::Unread)?;
        if n == 0 && turn > 0 {
            break;
        }
        step(rt, &mut input[..n], out)?;
        if n < input.len() {
            break;
        }
    }
    Ok(())
}

// Says on standard error why the program stops.
fn say(rt: &HostRuntime, stop: Stop) -> io::Result<()> {
    match stop {
        Stop::Refused(_) => eprintln!(rt; "tsdisperse: input: not whole packets"),
        other => programs::inner::say(rt, "tsdisperse", other),
    }
}

fn main(rt: HostRuntime) -> io::Result<()> {
    // The payload of 32 groups of eight packets, and their packets.
    let mut payload = [0u8; 47872];
    let mut packets = [0u8; 48128];
    let done = match only_flag(&rt, b"--back") {
        Some(false) => run(&rt, send, &mut payload, &mut packets),
        Some(true) => run(&rt, take_back, &mut packets, &mut payload),
        None => return eprintln!(rt; "usage: tsdisperse [--back] < input > output"),
    };
    done.or_else(|stop| say(&rt, stop))
}

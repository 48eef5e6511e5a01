// A worked caller of the device (docs/DEVICE.md): power-on, a queued read and a queued write of one sector each, what each call
// answers, and a refusal.
#![tactic(auto)]

use device::{Device, Sealed};
use device_state::Settings;
use frames::{DATA_FRAME_LIMIT, HostReg, Task, frames_of, write_data, write_host};
use refusals::Refusal;
use std::alloc::Global;
use std::env;
use std::io::{self, Write};
use version::VERSION;

// A queued read of one sector from sector 1 on, with tag 5.
const READ: [u8; 20] = [
    0x27,
    0x80,
    0x60,
    1,
    1,
    0,
    0,
    0x40,
    0,
    0,
    0,
    0,
    5 << 3,
    0,
    0,
    0,
    0,
    0,
    0,
    0,
];

// A line for a call: the type and length of each reply, or why the call was refused.
fn tell<W: Write>(
    out: &mut W,
    call: &str,
    answer: Result<usize, Refusal>,
    reply: &[u8],
) -> io::Result<()> {
    write!(out, "{call}:")?;
    match answer {
        Ok(length) => {
            for frame in frames_of(reply.get(..length).unwrap_or_default()) {
                write!(
                    out,
                    " {:02X}:{}",
                    frame.first().copied().unwrap_or_default(),
                    frame.len()
                )?;
            }
            writeln!(out)
        }
        Err(refusal) => writeln!(out, " refused, {}", refusal.number()),
    }
}

// A queued write of one sector to sector 2, with tag 3.
const WRITE: HostReg = HostReg {
    command_bit: true,
    command: 0x61,
    features: 1,
    task: Task {
        lba: 2,
        device: 0x40,
        count: 3 << 3,
    },
    features_high: 0,
    control: 0,
};

// A write: the frame of the command, and behind the Setup one with the data that are due.
fn write_sector<W: Write>(
    out: &mut W,
    device: &mut Sealed,
    medium: &mut [u8],
    reply: &mut [u8],
    frame: &mut [u8],
) -> anyhow::Result<()> {
    let length = write_host(frame, WRITE)?;
    let answer = device.host_frame(frame.get(..length).unwrap_or_default(), medium, reply);
    tell(out, "write", answer, reply)?;
    let answer = device.open(3, reply);
    tell(out, "open", answer, reply)?;
    let due = device.state().data_due().unwrap_or_default();
    writeln!(out, "due: {due}")?;
    let data = [0xA5u8; 512];
    let length = write_data(frame, data.get(..due).unwrap_or_default())?;
    let answer = device.host_frame(frame.get(..length).unwrap_or_default(), medium, reply);
    tell(out, "data", answer, reply)?;
    let answer = device.finish(1 << 3, reply);
    tell(out, "finish", answer, reply)?;
    Ok(())
}

// The calls in their order, over a medium and a reply buffer that are lent to each.
fn serve<W: Write>(alloc: Global, out: &mut W, mut device: Sealed) -> anyhow::Result<()> {
    let mut medium = vec![in alloc; 0u8; device.state().settings.medium_size()]?;
    let mut reply = vec![in alloc; 0u8; Device::REPLY_SIZE]?;
    let mut frame = vec![in alloc; 0u8; DATA_FRAME_LIMIT]?;
    let answer = device.host_frame(&READ, &mut medium, &mut reply);
    tell(out, "read", answer, &reply)?;
    let answer = device.open(5, &mut reply);
    tell(out, "open", answer, &reply)?;
    let answer = device.send(&medium, &mut reply);
    tell(out, "send", answer, &reply)?;
    let answer = device.finish(1 << 5, &mut reply);
    tell(out, "finish", answer, &reply)?;
    let answer = device.finish(1 << 5, &mut reply);
    tell(out, "finish again", answer, &reply)?;
    write_sector(out, &mut device, &mut medium, &mut reply, &mut frame)?;
    match device.state().counter(0x00A) {
        Ok(Some(value)) => writeln!(out, "00Ah: {value}")?,
        Ok(None) => writeln!(out, "00Ah: absent")?,
        Err(refusal) => writeln!(out, "00Ah: refused, {}", refusal.number())?,
    }
    Ok(())
}

fn asks_version(rt: HostRuntime) -> io::Result<bool> {
    let mut words = env::args(&rt)?.skip(1);
    Ok(match words.next() {
        Some(word) => word.as_str() == "--version",
        None => false,
    })
}

fn main(rt: HostRuntime) -> anyhow::Result<()> {
    if asks_version(rt)? {
        println!(rt; "sample_caller {VERSION}")?;
        return Ok(());
    }
    let settings = Settings {
        depth: 32,
        capacity: 4,
        mask: 0x0201,
    };
    match Sealed::power_on(settings) {
        Ok(device) => serve(rt.alloc(), &mut rt.stdout(), device),
        Err(refusal) => {
            println!(rt; "power-on: refused, {}", refusal.number())?;
            Ok(())
        }
    }
}

//! A machine that performs an image, its instructions one behind the other.
ghost use Rattle.ctl_machine.specs.Kept.{IsMachineOf};

use crate::images::{THREE_STORES, image};
use ctl_machine::{Machine, RunOut, StepOut};
use il_loader::Image;
use il_model::{InImage, Slot, Value};
use std::process::Abort;
use std::test::Fail;

/// Wants the instructions up to the next label to end so.
fn runs(rt: &impl Abort, machine: &mut Machine, image: &Image, wanted: RunOut)
    requires { IsMachineOf image.now machine.old }
    ensures { IsMachineOf image.now machine.new }
{
    let position = machine.pos();
    assert!(rt; (position as usize) < image.len());
    assert!(rt; machine.run_straight(image, 0, image.straight(position)) == wanted);
}

/// Wants one instruction to end so.
fn steps(rt: &impl Abort, machine: &mut Machine, image: &Image, wanted: StepOut)
    requires { IsMachineOf image.now machine.old }
    ensures { IsMachineOf image.now machine.new }
{
    assert!(rt; machine.step(image, 0) == wanted);
}

/// Wants these values of these slots.
fn shows(rt: &impl Abort, machine: &Machine, rows: &[(u16, Option<Value>)]) {
    for (slot, value) in rows.iter() {
        assert_eq!(rt; machine.peek(Slot(*slot)), *value);
    }
}

/// Wants these two outputs.
fn releases(rt: &impl Abort, machine: &Machine, first: bool, second: bool) {
    let outputs = machine.outputs();
    assert_eq!(rt;
        (outputs.cells.bits[0], outputs.cells.bits[1]),
        (first, second)
    );
}

/// Wants this current result and this position.
fn stands(rt: &impl Abort, machine: &Machine, cr: Option<Value>, position: u16) {
    assert!(rt; machine.cr() == cr && machine.pos() == position);
}

#[test]
fn a_machine_runs_through_its_image(rt: HostRuntime) -> Result<(), Fail> {
    let image = image(rt.alloc(), THREE_STORES)?;
    let mut machine = Machine::new(rt.alloc(), &image)?;
    stands(&rt, &machine, None, 0);
    machine.start(&InImage::clear());
    runs(&rt, &mut machine, &image, RunOut::On(3));
    stands(&rt, &machine, Some(Value::Bool(false)), 3);
    let rows = [
        (0x4000, Some(Value::Bool(true))),
        (0x4001, Some(Value::Bool(true))),
        (0x1001, Some(Value::Bool(true))),
        (0x1000, Some(Value::Bool(false))),
        (0x2400, Some(Value::Int(0))),
        (0x4002, None),
        (0x8000, None),
    ];
    shows(&rt, &machine, &rows);
    releases(&rt, &machine, false, true);
    machine.reset(&image);
    shows(&rt, &machine, &[(0x4000, Some(Value::Bool(false)))]);
    releases(&rt, &machine, false, false);
    steps(&rt, &mut machine, &image, StepOut::Next);
    steps(&rt, &mut machine, &image, StepOut::Next);
    steps(&rt, &mut machine, &image, StepOut::Next);
    steps(&rt, &mut machine, &image, StepOut::End);
    releases(&rt, &machine, false, true);
    Ok(())
}

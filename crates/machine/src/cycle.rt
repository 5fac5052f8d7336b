//! The instruction cycle.

ghost use Rattle.std.specs.Prelude.{◌≡◌, ◌+◌, ◌%◌, ◌<◌, ◌≤◌, ℕ, length, Ok, Err, OnOk, OnErr, IfOk, IfErr, true};
ghost use Rattle.core_store.specs.Storage.{largest_size};
ghost use Rattle.machine.specs.Effect.{attempt, works_of, Ends, next_of};
ghost use Rattle.units.specs.{Units.{areas_end, Makes}, declared.units.Units.{Units}};
ghost use Rattle.machine.specs.{
  declared.operations.Course.TheVariants.{GoesOn},
  Kinds.{Holds},
  Shapes.{shape_at},
  Run.{after, attempts, is_running, running, step, IsWanting},
};

use crate::at_once::execute_at_once;
use crate::cache::{Cache, Entry, Key, LOOKED_AT};
use crate::decode::{operands, read_shape};
use crate::operations::{Course, execute};
use crate::parts::Parts;
use crate::shapes::Shape;
use crate::standings::Standing;
use core_store::{Check, Core, LARGEST_SIZE, Registers};
use std::alloc::AllocError;
use units::{Fault, Units};

/// The position after an instruction of `count` characters, modulo 16000.
#[inline(always)]
fn next_of(i: u16, count: u16) -> u16
    requires { i + count ≤ largest_size }
    ensures { result ≡ next_of i count }
{
    let next = i + count;
    if next == LARGEST_SIZE { 0 } else { next }
}

/// Executes the instruction at register I, which has this shape.
#[inline(always)]
fn carry_out<C: Core>(
    core: &mut C,
    registers: &mut Registers,
    units: &mut Units,
    shape: &Shape,
) -> Result<Course, Fault>
    requires size { areas_end ≤ length (C.cells core.old) }
    requires inside { registers.old.i < length (C.cells core.old) }
    requires below { registers.old.i + shape.now.length ≤ largest_size }
    requires shape { shape_at (C.cells core.old) registers.old.i ≡ Ok shape.now }
    ensures { Ends result (works_of (C.cells core.old) registers.old units.old)
        (works_of (C.cells core.new) registers.new units.new) attempt }
{
    let (a, b) = operands(core, registers, &shape.addresses)?;
    let next = next_of(registers.i, shape.length);
    execute(core, registers, units, shape.working_at(a, b), next)
}

/// Reads the shape of the instruction at register I.
#[inline(always)]
#[tactic(auto, unfolding(crate::specs::Effect::attempt))]
fn read_here<C: Core>(core: &C, registers: &Registers) -> Result<Shape, Check>
    ensures inside { IfOk result (λ _. registers.now.i < length (C.cells core.now)) }
    ensures shape { IfOk result (λ shape.
        shape_at (C.cells core.now) registers.now.i ≡ Ok shape) }
    ensures below { IfOk result (λ shape. registers.now.i + shape.length ≤ largest_size) }
    ensures check { IfErr result (λ check. (units : Units) →
        attempt (works_of (C.cells core.now) registers.now units) ≡ Err check) }
{
    if registers.i >= core.size() {
        return Err(Check::Address);
    }
    match read_shape(core, registers.i) {
        Ok(shape) => Ok(shape),
        Err(check) => Err(check),
    }
}

/// Executes the instruction at register I, which is `i`, if it is kept and can be done at once.
/// Returns the position of the next one. `Err`: nothing is changed, and whether it is kept.
#[inline(always)]
fn attempt_at_once<C: Core>(
    core: &mut C,
    registers: &mut Registers,
    units: &Units,
    cache: &Cache,
    i: u16,
) -> Result<u16, bool>
    requires size { areas_end ≤ length (C.cells core.old) }
    requires cache { cache.now.size ≡ length (C.cells core.old) }
    requires here { registers.old.i ≡ i }
    ensures done { OnOk result (attempt (works_of (C.cells core.old) registers.old units.now)
        ≡ Ok (works_of (C.cells core.new) registers.new units.now, GoesOn)) }
    ensures next { IfOk result (λ next. registers.new.i ≡ next) }
    ensures unchanged { OnErr result ((C.cells core.new ≡ C.cells core.old)
        × (registers.new ≡ registers.old)) }
    ensures kept { IfErr result (λ is_kept. is_kept ≡ true →
        Holds cache.now.entries (C.cells core.old) i × (i < length (C.cells core.old))
        × (i + 8 ≤ largest_size)) }
{
    if i > core.size() - LOOKED_AT {
        return Err(false);
    }
    let Some(entry) = cache.entry(i, Key::at(core, i)) else {
        return Err(false);
    };
    if execute_at_once(core, registers, units, entry, i + entry.shape.length) {
        Ok(registers.i)
    } else {
        Err(true)
    }
}

/// Reads the instruction at register I and executes it. It is not kept.
#[inline(never)]
fn attempt_alone<C: Core>(
    core: &mut C,
    registers: &mut Registers,
    units: &mut Units,
) -> Result<Course, Fault>
    requires { areas_end ≤ length (C.cells core.old) }
    ensures { Ends result (works_of (C.cells core.old) registers.old units.old)
        (works_of (C.cells core.new) registers.new units.new) attempt }
{
    let shape = read_here(core, registers)?;
    carry_out(core, registers, units, &shape)
}

/// Keeps the shape of the instruction at a position.
fn keep<C: Core>(cache: &mut Cache, core: &C, i: u16, shape: &Shape)
    requires size { areas_end ≤ length (C.cells core.now) }
    requires cache { cache.old.size ≡ length (C.cells core.now) }
    requires shape { shape_at (C.cells core.now) i ≡ Ok shape.now }
    ensures { cache.new.size ≡ cache.old.size }
{
    if i <= core.size() - LOOKED_AT {
        let entry = Entry::of_shape(Key::at(core, i), *shape, cache.size);
        cache.keep(i, entry);
    }
}

/// Reads the shape of the instruction at register I, and keeps it.
fn read_anew<C: Core>(core: &C, registers: &Registers, cache: &mut Cache) -> Result<Shape, Check>
    requires size { areas_end ≤ length (C.cells core.now) }
    requires cache { cache.old.size ≡ length (C.cells core.now) }
    ensures inside { IfOk result (λ _. registers.now.i < length (C.cells core.now)) }
    ensures shape { IfOk result (λ shape.
        shape_at (C.cells core.now) registers.now.i ≡ Ok shape) }
    ensures below { IfOk result (λ shape. registers.now.i + shape.length ≤ largest_size) }
    ensures check { IfErr result (λ check. (units : Units) →
        attempt (works_of (C.cells core.now) registers.now units) ≡ Err check) }
    ensures cache { cache.new.size ≡ cache.old.size }
{
    let shape = read_here(core, registers)?;
    keep(cache, core, registers.i, &shape);
    Ok(shape)
}

/// The shape of the instruction at register I: the one that is kept, or read anew.
#[inline(always)]
fn shape_here<C: Core>(
    core: &C,
    registers: &Registers,
    cache: &mut Cache,
    is_kept: bool,
) -> Result<Shape, Check>
    requires size { areas_end ≤ length (C.cells core.now) }
    requires cache { cache.old.size ≡ length (C.cells core.now) }
    requires kept { is_kept ≡ true → Holds cache.old.entries (C.cells core.now) registers.now.i }
    requires inside { is_kept ≡ true → registers.now.i < length (C.cells core.now) }
    requires below { is_kept ≡ true → registers.now.i + 8 ≤ largest_size }
    ensures inside { IfOk result (λ _. registers.now.i < length (C.cells core.now)) }
    ensures shape { IfOk result (λ shape.
        shape_at (C.cells core.now) registers.now.i ≡ Ok shape) }
    ensures below { IfOk result (λ shape. registers.now.i + shape.length ≤ largest_size) }
    ensures check { IfErr result (λ check. (units : Units) →
        attempt (works_of (C.cells core.now) registers.now units) ≡ Err check) }
    ensures cache { cache.new.size ≡ cache.old.size }
{
    if is_kept {
        return Ok(cache.slot(registers.i).shape);
    }
    read_anew(core, registers, cache)
}

/// Executes the instruction at register I, which may be kept, out of line.
#[inline(never)]
fn attempt<C: Core>(
    core: &mut C,
    registers: &mut Registers,
    units: &mut Units,
    cache: &mut Cache,
    is_kept: bool,
) -> Result<Course, Fault>
    requires size { areas_end ≤ length (C.cells core.old) }
    requires cache { cache.old.size ≡ length (C.cells core.old) }
    requires kept { is_kept ≡ true → Holds cache.old.entries (C.cells core.old) registers.old.i }
    requires inside { is_kept ≡ true → registers.old.i < length (C.cells core.old) }
    requires below { is_kept ≡ true → registers.old.i + 8 ≤ largest_size }
    ensures ended { Ends result (works_of (C.cells core.old) registers.old units.old)
        (works_of (C.cells core.new) registers.new units.new) attempt }
    ensures cache { cache.new.size ≡ cache.old.size }
{
    let shape = shape_here(core, registers, cache, is_kept)?;
    carry_out(core, registers, units, &shape)
}

/// The attempts of a run that came to its end.
#[derive(Clone, Copy)]
pub(crate) struct Attempts {
    pub number: u32,
    /// The standing after them.
    pub standing: Standing,
}

/// That a machine gave up at an instruction that punches or prints, for want of memory.
#[derive(Clone, Copy)]
pub(crate) struct GivenUp {
    /// The number of instructions before it.
    pub attempted: u32,
}

/// Executes instructions of a running machine until one of them halts or ends in a check, at most
/// `limit` of them.
#[inline(never)]
fn execute_up_to<C: Core>(
    core: &mut C,
    registers: &mut Registers,
    units: &mut Units,
    limit: u32,
) -> Result<Attempts, GivenUp>
    requires { areas_end ≤ length (C.cells core.old) }
    ensures machine { IfOk result (λ made.
        record {
          works = works_of (C.cells core.new) registers.new units.new;
          standing = made.standing;
        }
        ≡ after (running (works_of (C.cells core.old) registers.old units.old)) limit) }
    ensures attempted { IfOk result (λ made. made.number
        ≡ attempts (running (works_of (C.cells core.old) registers.old units.old)) limit) }
    ensures given_up { IfErr result (λ given_up.
        IsWanting (running (works_of (C.cells core.old) registers.old units.old))
        (running (works_of (C.cells core.new) registers.new units.new))
        limit given_up.attempted) }
    ensures size { length (C.cells core.new) ≡ length (C.cells core.old) }
{
    let mut cache = Cache::new(core.size());
    let mut i = registers.i;
    for attempted in 0..limit {
        let is_kept = match attempt_at_once(core, registers, units, &cache, i) {
            Ok(next) => {
                i = next;
                continue;
            }
            Err(is_kept) => is_kept,
        };
        match attempt(core, registers, units, &mut cache, is_kept) {
            Ok(Course::GoesOn) => i = registers.i,
            Ok(Course::Halts) => {
                return Ok(Attempts {
                    number: attempted + 1,
                    standing: Standing::Halted,
                });
            }
            Err(fault) => match fault {
                Fault::Stopped(check) => {
                    return Ok(Attempts {
                        number: attempted + 1,
                        standing: Standing::Checked(check),
                    });
                }
                Fault::NoMemory => return Err(GivenUp { attempted }),
            },
        }
    }
    Ok(Attempts {
        number: limit,
        standing: Standing::Running,
    })
}

/// Executes one instruction of a running machine. Returns the standing after it. Only one that
/// punches or prints may fail, if there is no memory; then nothing is changed.
fn execute_one<C: Core>(
    core: &mut C,
    registers: &mut Registers,
    units: &mut Units,
) -> Result<Standing, AllocError>
    requires { areas_end ≤ length (C.cells core.old) }
    ensures machine { IfOk result (λ standing.
        record {
          works = works_of (C.cells core.new) registers.new units.new;
          standing = standing;
        }
        ≡ step (running (works_of (C.cells core.old) registers.old units.old))) }
    ensures unchanged { OnErr result (works_of (C.cells core.new) registers.new units.new
        ≡ works_of (C.cells core.old) registers.old units.old) }
    ensures memory { OnErr result (Makes units.old
        (step (running (works_of (C.cells core.old) registers.old units.old))).works.units) }
    ensures size { length (C.cells core.new) ≡ length (C.cells core.old) }
{
    match attempt_alone(core, registers, units) {
        Ok(Course::GoesOn) => Ok(Standing::Running),
        Ok(Course::Halts) => Ok(Standing::Halted),
        Err(Fault::Stopped(check)) => Ok(Standing::Checked(check)),
        Err(Fault::NoMemory) => Err(AllocError),
    }
}

impl<C: Core> Parts<C> {
    /// Whether the machine is running.
    pub(crate) fn is_running(&self) -> bool
        ensures { result ≡ is_running self.now.standing }
    {
        self.standing.is_running()
    }

    /// Does one instruction if the machine is running. Returns the number of instructions
    /// attempted. Only one that punches or prints may fail, if there is no memory; then nothing is
    /// changed.
    pub(crate) fn work_once(&mut self) -> Result<u32, AllocError>
        ensures machine { OnOk result (self.new ≡ step self.old) }
        ensures attempted { IfOk result (λ attempted. attempted ≡ attempts self.old 1) }
        ensures unchanged { OnErr result (self.new ≡ self.old) }
        ensures memory { OnErr result
            (Makes self.old.works.units (step self.old).works.units) }
    {
        if !self.is_running() {
            return Ok(0);
        }
        self.standing = execute_one(&mut self.core, &mut self.registers, &mut self.units)?;
        Ok(1)
    }

    /// Runs until the limit, a halt or a check. Returns the number of instructions attempted. Only
    /// one that punches or prints may fail, if there is no memory; those before it are done.
    pub(crate) fn work(&mut self, limit: u32) -> Result<u32, GivenUp>
        ensures machine { OnOk result (self.new ≡ after self.old limit) }
        ensures attempted { IfOk result (λ attempted. attempted ≡ attempts self.old limit) }
        ensures given_up { IfErr result (λ given_up.
            IsWanting self.old self.new limit given_up.attempted) }
    {
        if !self.is_running() {
            return Ok(0);
        }
        let made = execute_up_to(&mut self.core, &mut self.registers, &mut self.units, limit)?;
        self.standing = made.standing;
        Ok(made.number)
    }
}

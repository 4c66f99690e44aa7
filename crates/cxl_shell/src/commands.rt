//! The commands.

ghost use Rattle.std.specs.Prelude.{◌≡◌, ◌≤◌, None, false};
ghost use Rattle.cxl_shell.specs.Devices.{devices};
ghost use Rattle.cxl_commands.specs.Form.{table_file, runs_session, reads_script, IsRangedForm};
ghost use Rattle.cxl_commands.specs.Outside.{outside};
ghost use Rattle.cxl_commands.specs.Plain.{plain};
ghost use Rattle.cxl_shell.specs.Run.{IsRun};

pub(crate) mod generated;
pub(crate) mod script;

use cxl_bus::Regs;
use cxl_commands::{Form, HostAsk, ResetAsk, WordsAsk, check, of_table, plan, said};
use cxl_inputs::{Status, fetch_host, fetch_reset_host, finish};
use cxl_io::{Fetch, Sink, Source};
use cxl_media::Roll;
use generated::generated;
use script::{script_from_image, script_over_regions};
use std::alloc::Global;

/// Carries out what the words ask for, and writes what it comes to.
pub(crate) fn carry_out<F: Fetch, S: Source, K: Sink, R: Regs, M: Roll>(
    alloc: Global,
    form: Form<'_>,
    files: &mut F,
    source: &mut S,
    out: &mut K,
    regs: &mut R,
    media: &mut M,
) -> Status
    requires { IsRangedForm (plain form) }
    ensures run { IsRun (plain form.entry)
        (outside (F.state files.old) (K.state out.old)) (outside (F.state files.new) (K.state out.new))
        (devices (S.state source.old) (R.state regs.old) (M.state media.old))
        (devices (S.state source.new) (R.state regs.new) (M.state media.new)) result }
    ensures left { runs_session (plain form.entry) ≡ false
        → (source.new ≡ source.old) × (regs.new ≡ regs.old) × (media.new ≡ media.old) }
    ensures unread { reads_script (plain form.entry) ≡ false → source.new ≡ source.old }
    ensures files { (F.state files.old).faults ≤ (F.state files.new).faults }
    ensures source { (S.state source.old).faults ≤ (S.state source.new).faults }
    ensures sink { (K.state out.old).faults ≤ (K.state out.new).faults }
    ensures bus { (R.state regs.old).faults ≤ (R.state regs.new).faults }
    ensures told { (F.state files.new).told ≡ (F.state files.old).told }
    ensures idle { table_file (plain form.entry) ≡ None → files.new ≡ files.old }
{
    match form {
        Form::OfTable(cedt, ask) => of_table(alloc, cedt, ask, files, out),
        Form::OfResetHost(cedt, topo, ask) => match ask {
            ResetAsk::Plan(create) => finish(plan(alloc, cedt, topo, &create, files), out),
            ResetAsk::Script => match fetch_reset_host(alloc, cedt, topo, files) {
                // after reset there is no region
                Ok(host) => {
                    script_over_regions(alloc, host, Vec::new(alloc), source, out, regs, media)
                }
                Err(stop) => finish(Err(stop), out),
            },
        },
        Form::OfHost(cedt, topo, image, ask) => match ask {
            HostAsk::Check => check(alloc, cedt, topo, image, files, out),
            HostAsk::Script => match fetch_host(alloc, cedt, topo, image, files) {
                Ok(host) => script_from_image(alloc, host, source, out, regs, media),
                Err(stop) => finish(Err(stop), out),
            },
        },
        Form::OfWords(ask) => match ask {
            WordsAsk::Gen(n) => generated(alloc, n, out, regs, media),
            ask => finish(Ok(said(ask)), out),
        },
    }
}

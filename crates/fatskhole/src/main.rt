// Reads one shift as a script, from a file or from standard input, carries it out and prints what each line did.
#![tactic(auto)]

mod stop;

use answers::RefusalWords;
use desk::answer;
use map_file::file::FileMap;
use script_reader::reader::read_script;
use script_reader::scripts::{Opening, Script};
use std::io::Read;
use std::process::ExitCode;
use std::{env, fs};
use stop::Stop;
use street_lists::arc_count;
use streets::closures::ClosureLayer;
use streets::grid::GridMap;
use streets::map::Map;

fn read_file(rt: &HostRuntime, path: &str) -> Result<Vec<u8>, Stop> {
    fs::read(rt, path).map_err(|why| Stop::unreadable(rt.alloc(), path, why))
}

fn read_input(rt: &HostRuntime) -> Result<Vec<u8>, Stop> {
    let mut bytes = Vec::new(rt.alloc());
    rt.stdin()
        .read_to_end(&mut bytes)
        .map_err(|why| Stop::unreadable(rt.alloc(), "standard input", why))?;
    Ok(bytes)
}

// The bytes of the script: the file that the command line names, or standard input where it names none.
fn script_text(rt: &HostRuntime) -> Result<Vec<u8>, Stop> {
    let mut words = env::args(rt)?.skip(1);
    match (words.next(), words.next()) {
        (None, _) => read_input(rt),
        (Some(path), None) => read_file(rt, path.as_str()),
        (Some(_), Some(_)) => Err(Stop::Usage),
    }
}

fn carry_out<M: Map + Drop>(rt: &HostRuntime, map: M, script: &Script) -> Result<(), Stop> {
    let opening = &script.opening;
    let points = map.points();
    let arcs = arc_count(&map);
    println!(rt; "{opening} -> points {points} arcs {arcs}")?;
    let mut layer = ClosureLayer::new(map);
    for call in &script.calls {
        let reply = answer(rt.alloc(), &mut layer, *call)?;
        println!(rt; "{call} -> {reply}")?;
    }
    Ok(())
}

fn run(rt: &HostRuntime) -> Result<(), Stop> {
    let text = script_text(rt)?;
    let script = read_script(rt.alloc(), text.as_slice())?;
    match &script.opening {
        Opening::Map(path) => {
            let bytes = read_file(rt, path.as_str())?;
            match FileMap::open(bytes.as_slice()) {
                Ok(map) => carry_out(rt, map, &script),
                Err(refusal) => {
                    println!(rt; "map {path} -> {}", RefusalWords::new(refusal))?;
                    Err(Stop::MapRefused)
                }
            }
        }
        Opening::Grid(yard) => {
            // `as`: a number of a script is as wide as an index, and no `From` goes between the two
            let grid = GridMap::new(
                yard.rows as usize,
                yard.columns as usize,
                yard.seconds as usize,
                yard.climb as usize,
            );
            carry_out(rt, grid, &script)
        }
    }
}

fn main(rt: HostRuntime) -> ExitCode {
    match run(&rt) {
        Ok(()) => ExitCode::SUCCESS,
        Err(stop) => {
            let _ = eprintln!(rt; "fatskhole: {stop}");
            ExitCode::FAILURE
        }
    }
}

//! Commands, and what they are answered by: the expected answers are worked out from the rules of the Rust crate `clap`.

use link_command::{IcfMode, Wanted, command_of};
use std::alloc::{AllocError, Global};
use std::test::Fail;

macro_rules! accepted {
    ($($words:literal => $answer:literal);+ $(;)?) => {
        &[$(($words, $answer)),+]
    };
}

/// The words after the program's name; the names of executable and entry, the number of workers, what else is asked for, and the inputs.
const ACCEPTED: &[(&str, &str)] = accepted![
    "" => "a.out|_start|4|"; "a.o" => "a.out|_start|4|a.o"; "-o|x|-e|g|a.o" => "x|g|4|a.o"; "--|-s" => "a.out|_start|4|-s";
    "--Map|m|a.o" => "a.out|_start|4 map m|a.o"; "--Map=m|-s|a.o" => "a.out|_start|4 stripped map m|a.o";
    "a.o|--Map|a.o" => "a.out|_start|4 map a.o|a.o"; "--Map=|a.o" => "a.out|_start|4 map |a.o"; "--Map||a.o" => "a.out|_start|4 map |a.o";
    "-o|a|--Map|A|a.o" => "a|_start|4 map A|a.o"; "--Map|a.ou|a.o" => "a.out|_start|4 map a.ou|a.o"; "--self-input|1" => "a.out|_start|4 generated 1";
    "--self-input=65536" => "a.out|_start|4 generated 65536"; "--self-input|+4" => "a.out|_start|4 generated 4";
    "--self-input|004|--threads|64" => "a.out|_start|64 generated 4"; "--self-input|3|-s|-o|x|--Map|y" => "x|_start|4 stripped map y generated 3";
    "--icf=all|--self-input=15|--gc-sections|--no-relax" => "a.out|_start|4 collected folded unrelaxed generated 15";
    "-s|a.o" => "a.out|_start|4 stripped|a.o"; "a.o|-s" => "a.out|_start|4 stripped|a.o"; "--strip-all|a.o" => "a.out|_start|4 stripped|a.o";
    "-o|x|-e|g|--threads|64|-s|a.o|b.o" => "x|g|64 stripped|a.o|b.o"; "--output=x|--entry=g|--strip-all|a.o" => "x|g|4 stripped|a.o";
    "--output|x|--entry|g|--threads=1|-s|a.o" => "x|g|1 stripped|a.o"; "a.o|-s|b.o" => "a.out|_start|4 stripped|a.o|b.o";
    "b.o|-o|x|a.o|-s|b.o" => "x|_start|4 stripped|b.o|a.o|b.o"; "-ox|-e=g|-s|a.o" => "x|g|4 stripped|a.o"; "-sox|a.o" => "x|_start|4 stripped|a.o";
    "-so|x|a.o" => "x|_start|4 stripped|a.o"; "--threads|+4|-s|a.o" => "a.out|_start|4 stripped|a.o";
    "--threads|004|-s|a.o" => "a.out|_start|4 stripped|a.o"; "--output=|-s|a.o" => "|_start|4 stripped|a.o"; "-o||-s|a.o" => "|_start|4 stripped|a.o";
    "-s|" => "a.out|_start|4 stripped|"; "|-s|a.o|" => "a.out|_start|4 stripped||a.o|"; "-s|--|-x.o" => "a.out|_start|4 stripped|-x.o";
    "-s|--|--|-s" => "a.out|_start|4 stripped|--|-s"; "a.o|-s|--|b.o" => "a.out|_start|4 stripped|a.o|b.o"; "-s|-" => "a.out|_start|4 stripped|-";
    "-s|help" => "a.out|_start|4 stripped|help"; "-s|a=b|c d" => "a.out|_start|4 stripped|a=b|c d";
    "-s|-e|\u{e9}|a\u{20ac}.o" => "a.out|\u{e9}|4 stripped|a\u{20ac}.o"; "--gc-sections|-s|a.o" => "a.out|_start|4 collected stripped|a.o";
    "a.o|-s|--gc-sections" => "a.out|_start|4 collected stripped|a.o"; "--icf|all|-s|a.o" => "a.out|_start|4 folded stripped|a.o";
    "--icf=none|-s|a.o" => "a.out|_start|4 stripped|a.o"; "--icf|safe|-s|a.o" => "a.out|_start|4 folded safely stripped|a.o";
    "--undefined|a|-s|a.o" => "a.out|_start|4 asking+a stripped|a.o";
    "-s|--undefined=a,bc,a|a.o|--keep-unique|d" => "a.out|_start|4 asking+a+bc+a unique+d stripped|a.o";
    "--why-live|f|a.o" => "a.out|_start|4 why f|a.o"; "--why-apart=f,g|-s|a.o|--why-live=f,g" => "a.out|_start|4 apart+f+g stripped why f,g|a.o";
    "-s|a.o|--icf=all|--gc-sections" => "a.out|_start|4 collected folded stripped|a.o";
    "--no-relax|-s|a.o" => "a.out|_start|4 unrelaxed stripped|a.o"; "-s|--icf|all|a.o|--no-relax" => "a.out|_start|4 folded unrelaxed stripped|a.o";
];

const REFUSED: &[&str] = table![
    "-s"; "-s|--"; "-s|-e||a.o"; "-s|--entry=|a.o"; "--threads|65|-s|a.o"; "--threads|0|-s|a.o"; "--threads|x|-s|a.o"; "--threads||-s|a.o";
    "--threads|4x|-s|a.o"; "--threads|-4|-s|a.o"; "--threads=-4|-s|a.o"; "--threads=-0|-s|a.o"; "--threads|4294967300|-s|a.o"; "-s|a.o|--threads";
    "-s|a.o|-o"; "-o|-s|a.o"; "--icf|some|-s|a.o"; "--icf|All|-s|a.o"; "--icf|Safe|-s|a.o"; "--undefined||-s|a.o"; "--undefined=|-s|a.o";
    "--undefined|a,,b|a.o"; "--undefined|,a|a.o"; "--undefined|a,|a.o"; "--undefined|a|--undefined|b|a.o"; "-u|a|a.o"; "a.o|--undefined";
    "--keep-unique||a.o"; "--keep-unique|a,,b|a.o"; "--keep-unique|a|--keep-unique|a|a.o"; "--keep-unique|,|a.o"; "a.o|--keep-unique";
    "--why-live||a.o"; "--why-live=|a.o"; "--why-live|f|--why-live|f|a.o"; "a.o|--why-live"; "--why-apart||a.o"; "--why-apart|f|a.o";
    "--why-apart|f,g,h|a.o"; "--why-apart|,g|a.o"; "--why-apart|f,|a.o"; "--why-apart|,|a.o"; "--why-apart|f,g|--why-apart|f,g|a.o";
    "a.o|--why-apart"; "--why|f|a.o"; "--icf||-s|a.o"; "--icf=|-s|a.o"; "-s|a.o|--icf"; "--icf|all|--icf|all|-s|a.o"; "--no-relax=true|-s|a.o";
    "--Output|x|-s|a.o"; "--strip|-s|a.o"; "-t|4|-s|a.o"; "-x|-s|a.o"; "-sx|a.o"; "-h|-s|a.o"; "--help|-s|a.o"; "-s|a.o|--help"; "-V|-s|a.o";
    "--version|-s|a.o"; "-s|-s|a.o"; "-s|--strip-all|a.o"; "-o|x|-o|y|-s|a.o"; "--strip-all=true|a.o"; "--threads|4|--threads|4|-s|a.o";
    "--gc-sections|--gc-sections|-s|a.o"; "--gc-sections=true|-s|a.o"; "--gc|-s|a.o"; "--"; "-o|m"; "--Map|m"; "-o|m|--Map|m|a.o";
    "--Map=m|--output=m|-s|a.o"; "--Map|a.out|a.o"; "-o||--Map=|a.o"; "--Map|m|--Map|m|a.o"; "--Map|m|--Map|n|a.o"; "a.o|--Map"; "--Map|-s|a.o";
    "--map|m|a.o"; "-Map|m|a.o"; "-M|m|a.o"; "--Map|m|-e||a.o"; "--self-input|0"; "--self-input|65537"; "--self-input|x"; "--self-input|-1";
    "--self-input=-1"; "--self-input=-0"; "--self-input="; "--self-input|4x"; "--self-input"; "--self-input|4294967297"; "--self-input|2|a.o";
    "a.o|--self-input=2"; "--self-input|2|"; "--self-input|2|--|a.o"; "--self-input|2|--self-input|2"; "--self-input|2|-o|m|--Map|m";
    "--self-input|2|--entry="; "--self-input|2|--icf|some"; "--Self-input|2"; "--self|2";
];

/// The program's name and the words.
fn words_of(alloc: Global, text: &str) -> Result<Vec<String>, AllocError> {
    let mut words = Vec::new(alloc);
    words.push("rvld".to_string(alloc)?)?;
    for word in text.split('|') {
        words.push(word.to_string(alloc)?)?;
    }
    Ok(words)
}

/// Adds a word and names, if there are any.
fn push_names(answer: &mut String, word: &str, names: &[Vec<u8>]) -> Result<(), AllocError> {
    if names.is_empty() {
        return Ok(());
    }
    answer.push_str(word)?;
    for name in names {
        answer.push_str("+")?;
        for byte in name.as_slice() {
            answer.push(*byte as char)?;
        }
    }
    Ok(())
}

fn answer_to(alloc: Global, words: &[String]) -> Result<String, AllocError> {
    let Some(command) = command_of(alloc, words)? else {
        return "refused".to_string(alloc);
    };
    let mut answer = format!(in alloc; "{}|{}|{}", command.output, command.entry, command.threads)?;
    if command.gc {
        answer.push_str(" collected")?;
    }
    match command.icf {
        IcfMode::Off => {}
        IcfMode::All => answer.push_str(" folded")?,
        IcfMode::Safe => answer.push_str(" folded safely")?,
    }
    push_names(&mut answer, " asking", command.undefined.as_slice())?;
    push_names(&mut answer, " unique", command.unique.as_slice())?;
    push_names(&mut answer, " apart", command.why_apart.as_slice())?;
    if !command.relax {
        answer.push_str(" unrelaxed")?;
    }
    if command.strip {
        answer.push_str(" stripped")?;
    }
    if let Some(name) = &command.why_live {
        answer.push_str(" why ")?;
        answer.push_str(name.as_str())?;
    }
    if let Some(map) = &command.map {
        answer.push_str(" map ")?;
        answer.push_str(map.as_str())?;
    }
    if let Wanted::Generated(count) = &command.inputs {
        answer.push_str(format!(in alloc; " generated {count}")?.as_str())?;
    }
    for input in command.inputs.names() {
        answer.push('|')?;
        answer.push_str(input.as_str())?;
    }
    Ok(answer)
}

#[test]
fn commands_ask_for_what_clap_finds(rt: HostRuntime) -> Result<(), Fail> {
    let alloc = rt.alloc();
    let mut words = Vec::new(alloc);
    for _ in 0..2 {
        assert_eq!(rt; answer_to(alloc, words.as_slice())?.as_str(), "refused");
        words.push("rvld".to_string(alloc)?)?;
    }
    for (text, expected) in ACCEPTED {
        let words = words_of(alloc, text)?;
        let answer = answer_to(alloc, words.as_slice())?;
        assert_eq!(rt; answer.as_str(), *expected, "{text}");
    }
    for text in REFUSED {
        let words = words_of(alloc, text)?;
        let answer = answer_to(alloc, words.as_slice())?;
        assert_eq!(rt; answer.as_str(), "refused", "{text}");
    }
    Ok(())
}

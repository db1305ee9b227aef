// Texts with their tokens, and texts without.
ghost use Rattle.std.specs.Prelude.{◌≤◌, length};

use crate::{Kind, LexFault, MAX_BYTES, tokens};
use std::alloc::Global;
use std::test::Fail;

fn mark(kind: Kind) -> &'static str {
    match kind {
        Kind::Num => "num",
        Kind::Ident => "ident",
        Kind::Not => "not",
        Kind::Var => "var",
        Kind::Any => "any",
        Kind::Str => "str",
        Kind::Directive => "dir",
        Kind::Sign => "",
    }
}

// Each token by its kind and its bytes, or the place of the fault.
fn shown(alloc: Global, text: &str) -> Result<String, Fail>
    requires { length text.now ≤ MAX_BYTES }
{
    match tokens(alloc, text) {
        Ok(found) => {
            let mut line = String::new(alloc);
            for token in &found {
                line.push_str(mark(token.kind))?;
                line.push_str("[")?;
                line.push_str(token.spelling(text))?;
                line.push_str("]")?;
            }
            Ok(line)
        }
        Err(LexFault::At { at }) => Ok(format!(in alloc; "at {at}")?),
        Err(LexFault::Memory) => Ok(format!(in alloc; "memory")?),
    }
}

#[test]
fn splits_texts(rt: HostRuntime) -> Result<(), Fail> {
    for (text, want) in [
        ("", ""),
        (" \t\r\n% \" 01 %*\n%", ""),
        (
            "a:-not b,__x'1Z.",
            "ident[a][:-]not[not]ident[b][,]ident[__x'1Z][.]",
        ),
        ("nota not' not", "ident[nota]ident[not']not[not]"),
        (
            "0 2147483647 1a1..2",
            "num[0]num[2147483647]num[1]ident[a1][..]num[2]",
        ),
        ("X _Y1(_,_)", "var[X]var[_Y1][(]any[_][,]any[_][)]"),
        (
            "\"\"\"\\\\\\\"\\n é%*\"a",
            "str[\"\"]str[\"\\\\\\\"\\n é%*\"]ident[a]",
        ),
        ("#show#sumX", "dir[#show]dir[#sum]var[X]"),
        (
            "...:::-:~>>=<=>=!===**||%*",
            "[..][.][::][:-][:~][>>][=][<=][>=][!=][==][**][||][%*]",
        ),
        (
            ",;: :(){}= <>+-* /\\&| @?^~%",
            "[,][;][:][:][(][)][{][}][=][<][>][+][-][*][/][\\][&][|][@][?][^][~]",
        ),
    ] {
        assert!(rt; text.len() <= MAX_BYTES);
        assert_eq!(rt; shown(rt.alloc(), text)?.as_str(), want, "at {text:?}");
    }
    Ok(())
}

#[test]
fn finds_faults(rt: HostRuntime) -> Result<(), Fail> {
    for (text, want) in [
        ("01", "at 0"),
        ("a 2147483648", "at 2"),
        ("99999999999999999999999", "at 0"),
        ("a __", "at 2"),
        ("_1a", "at 0"),
        ("_'", "at 0"),
        ("_é", "at 1"),
        ("a. \"b", "at 3"),
        ("\"\\t\"", "at 0"),
        ("\"a\nb\"", "at 0"),
        ("a # b", "at 2"),
        ("!a", "at 0"),
        ("'a", "at 0"),
        ("% b\n[", "at 4"),
        ("a\u{c}b", "at 1"),
    ] {
        assert!(rt; text.len() <= MAX_BYTES);
        assert_eq!(rt; shown(rt.alloc(), text)?.as_str(), want, "at {text:?}");
    }
    Ok(())
}

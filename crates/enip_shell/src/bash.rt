//! The completion script of bash.

use crate::names::{
    HELP, Layout, write_class_attributes, write_help_topics, write_list, write_names,
    write_services, write_texts, write_types,
};
use crate::tables::{Argument, Command, Program, Takes};
use cip_names::{CLASS_ATTRIBUTES, CLASSES};
use std::io::{self, Write};

/// Writes the completion script of bash. It depends on nothing but bash 4.2.
///
/// # Errors
///
/// Those of the writer.
pub fn write_bash<W: Write>(output: &mut W, program: &Program) -> io::Result<()> {
    let start = "# bash completion of enip ";
    let end = "\n# Written by: enip completions bash\n";
    write_texts(output, &[start, program.version, end])?;
    write_commands(output, program)?;
    write_options(output, program)?;
    write_values(output, program)?;
    write_arguments(output, program)?;
    write_attributes(output)?;
    write_completions(output)?;
    output.write_all(MAIN.as_bytes())
}

/// The beginning of the function that gives what an option takes.
const VALUE: &str = r#"
# What an option of a command takes, if anything. One whose value is optional ends in `=`.
_enip_value() {
    kind=
    case $1$2 in
"#;

/// The beginning of the function that gives what arguments are.
const ARGUMENTS: &str = r#"
# What the arguments of a command are, in their order.
_enip_arguments() {
    kinds=()
    case $1 in
"#;

/// The beginning of the function that gives attributes.
const ATTRIBUTES: &str = r#"
# The attributes of a class and an instance.
_enip_attributes() {
    words=
    case $2 in
    0 | 0x0)
        words='"#;

/// Writes the function that gives the names of the commands.
fn write_commands<W: Write>(output: &mut W, program: &Program) -> io::Result<()> {
    output.write_all(b"\n_enip_commands() {\n    words='")?;
    for command in &program.commands {
        write_texts(output, &[command.name, " "])?;
    }
    write_texts(output, &[HELP, "'\n}\n"])
}

/// Writes the function that gives the options of a command.
fn write_options<W: Write>(output: &mut W, program: &Program) -> io::Result<()> {
    output.write_all(
        b"\n# The options of a command.\n_enip_options() {\n    words=\n    case $1 in\n",
    )?;
    for command in &program.commands {
        write_texts(output, &["    ", command.name, ") words='"])?;
        write_option_names(output, command)?;
        output.write_all(b"-h --help' ;;\n")?;
    }
    output.write_all(b"    '') words='-h --help -V --version' ;;\n    esac\n}\n")
}

/// Writes the options of a command with a space after each.
fn write_option_names<W: Write>(output: &mut W, command: &Command) -> io::Result<()> {
    for argument in &command.arguments {
        if let Some(option) = argument.option {
            write_texts(output, &["--", option, " "])?;
        }
    }
    Ok(())
}

/// Writes the function that gives what an option takes.
fn write_values<W: Write>(output: &mut W, program: &Program) -> io::Result<()> {
    output.write_all(VALUE.as_bytes())?;
    for command in &program.commands {
        for argument in &command.arguments {
            write_value(output, command.name, argument)?;
        }
    }
    output.write_all(b"    esac\n}\n")
}

/// Writes what an option of a command takes. Nothing for an argument or a flag.
fn write_value<W: Write>(
    output: &mut W,
    command: &'static str,
    argument: &Argument,
) -> io::Result<()> {
    let Some(option) = argument.option else {
        return Ok(());
    };
    if let Takes::Nothing = argument.takes {
        return Ok(());
    }
    let end = if argument.is_optional { "=" } else { "" };
    write_texts(output, &["    ", command, "--", option, end, ") kind="])?;
    write_kind(output, argument.takes)?;
    output.write_all(b" ;;\n")
}

/// Writes what an argument takes, as `_enip_complete` reads it.
fn write_kind<W: Write>(output: &mut W, takes: Takes) -> io::Result<()> {
    let kind = match takes {
        Takes::Nothing | Takes::Text => "text",
        Takes::File => "file",
        Takes::Type => "type",
        Takes::Class => "class",
        Takes::Attribute => "attribute",
        Takes::Service => "service",
        Takes::Names(_) | Takes::NamesOrText(_) => {
            output.write_all(b"'names")?;
            write_list(output, takes)?;
            "'"
        }
    };
    output.write_all(kind.as_bytes())
}

/// Writes the function that gives what the arguments of a command are.
fn write_arguments<W: Write>(output: &mut W, program: &Program) -> io::Result<()> {
    output.write_all(ARGUMENTS.as_bytes())?;
    for command in &program.commands {
        write_texts(output, &["    ", command.name, ") kinds=("])?;
        write_kinds(output, command)?;
        output.write_all(b") ;;\n")?;
    }
    write_texts(output, &["    ", HELP, ") kinds=('names"])?;
    write_help_topics(output, program)?;
    output.write_all(b"') ;;\n    esac\n}\n")
}

/// Writes what each argument of a command takes, with a space after each.
fn write_kinds<W: Write>(output: &mut W, command: &Command) -> io::Result<()> {
    for argument in &command.arguments {
        if argument.option.is_none() {
            write_kind(output, argument.takes)?;
            output.write_all(b" ")?;
        }
    }
    Ok(())
}

/// The texts around a class and its attributes.
const CLASS_LAYOUT: Layout = Layout {
    start: "    ",
    between: " | ",
    middle: ") words='",
    end: "' ;;\n",
};

/// Writes the function that gives the attributes of a class.
fn write_attributes<W: Write>(output: &mut W) -> io::Result<()> {
    output.write_all(ATTRIBUTES.as_bytes())?;
    write_names(output, &CLASS_ATTRIBUTES)?;
    output.write_all(b"'\n        return\n        ;;\n    esac\n    case ${1,,} in\n")?;
    write_class_attributes(output, &CLASS_LAYOUT)?;
    output.write_all(b"    esac\n}\n")
}

/// Writes the function that completes a value.
fn write_completions<W: Write>(output: &mut W) -> io::Result<()> {
    output.write_all(COMPLETE.as_bytes())?;
    output.write_all(b"    type) words='")?;
    write_types(output, "")?;
    output.write_all(b"' ;;\n    class) words='")?;
    write_names(output, &CLASSES)?;
    output.write_all(b"' ;;\n    service) words='")?;
    write_services(output)?;
    output.write_all(b"' ;;\n    esac\n    _enip_reply \"$2\" \"$3\"\n}\n")
}

/// The beginning of the function that completes a value.
const COMPLETE: &str = r#"
# Offers those of the words that begin with a text. Each gets what comes before the text.
_enip_reply() {
    mapfile -t COMPREPLY < <(compgen -P "$2" -W "$words" -- "$1")
}

# Offers what an argument of a kind can be: KIND, TEXT, and what comes before the text.
_enip_complete() {
    words=
    case $1 in
    file)
        mapfile -t COMPREPLY < <(compgen -P "$3" -f -- "$2")
        compopt -o filenames 2>/dev/null
        return
        ;;
    names\ *) words=${1#names } ;;
    attribute) _enip_attributes "${arguments[1]-}" "${arguments[2]-}" ;;
"#;

/// The function that bash calls.
const MAIN: &str = r#"
_enip() {
    local -a given=() kinds=() arguments=()
    local line=$COMP_LINE command='' option='' kind='' words='' before='' word i
    COMPREPLY=()
    # bash has split each word at `=` and `:`
    for ((i = 0; i <= COMP_CWORD; i++)); do
        if ((i > 0)) && [[ $line != [[:blank:]]* ]]; then
            given[-1]+=${COMP_WORDS[i]}
        else
            given+=("${COMP_WORDS[i]}")
        fi
        line=${line#"${line%%[![:blank:]]*}"}
        line=${line#"${COMP_WORDS[i]}"}
    done
    for word in "${given[@]:1:${#given[@]}-2}"; do
        if [[ -z $command ]]; then
            [[ $word == -* ]] || command=$word
        elif [[ -n $option ]]; then
            option=
        elif [[ $word == --* ]]; then
            _enip_value "$command" "$word"
            [[ -z $kind ]] || option=$word
        elif [[ $word != -[hV] ]]; then
            arguments+=("$word")
        fi
    done
    word=${given[-1]}
    if [[ -n $option ]]; then
        _enip_complete "$kind" "$word" ''
    elif [[ $word == --*=* ]]; then
        option=${word%%=*}
        [[ $COMP_WORDBREAKS == *=* ]] || before=$option=
        _enip_value "$command" "$option"
        [[ -n $kind ]] || _enip_value "$command" "$option="
        _enip_complete "$kind" "${word#*=}" "$before"
    elif [[ $word == -* ]]; then
        _enip_options "$command"
        _enip_reply "$word" ''
    elif [[ -z $command ]]; then
        _enip_commands
        _enip_reply "$word" ''
    else
        _enip_arguments "$command"
        _enip_complete "${kinds[${#arguments[@]}]-}" "$word" ''
    fi
}

complete -F _enip enip
"#;

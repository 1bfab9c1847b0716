//! What is printed of the answer to a query.
ghost use Rattle.std.specs.Prelude.{◌≡◌, ◌++◌, OnOk, string_bytes};
ghost use Rattle.std.specs.List.{flat_map};
ghost use Rattle.pm_types.specs.Printed.{change_text, cluster_text, package_text};
ghost use Rattle.report.specs.Answers.{answer_text, history_text, spaced};

use pm_types::{Answer, ChangeInfo, ClusterInfo, Line, PackageInfo, Reply};
use std::alloc::AllocError;

/// Adds the answer to a query, where a node's first place has this time.
pub fn add_answer(text: &mut String, start: u64, answer: &Answer) -> Result<(), AllocError>
    ensures { OnOk result (string_bytes text.new
        ≡ string_bytes text.old ++ answer_text start answer.now) }
{
    match answer {
        Answer::Status(status) => write!(text, "Status {status}"),
        Answer::Clusters(clusters) => {
            write!(text, "Clusters")?;
            add_clusters(text, clusters.as_slice())
        }
        Answer::Changes(changes) => {
            write!(text, "Changes")?;
            add_changes(text, changes.as_slice())
        }
        Answer::Packages(packages) => {
            write!(text, "Packages")?;
            add_packages(text, packages.as_slice())
        }
        Answer::Progress(percent) => write!(text, "Progress {percent}"),
        Answer::Refused(refusal) => {
            let reply = Reply::Refused(*refusal);
            write!(text, "{reply}")
        }
        Answer::History(lines) => {
            write!(text, "History")?;
            add_history(text, start, lines.as_slice())
        }
    }
}

fn add_clusters(text: &mut String, clusters: &[ClusterInfo]) -> Result<(), AllocError>
    ensures { OnOk result (string_bytes text.new
        ≡ string_bytes text.old ++ flat_map (λ c. spaced (cluster_text c)) clusters.now) }
{
    for cluster in clusters {
        write!(text, " {cluster}")?;
    }
    Ok(())
}

fn add_changes(text: &mut String, changes: &[ChangeInfo]) -> Result<(), AllocError>
    ensures { OnOk result (string_bytes text.new
        ≡ string_bytes text.old ++ flat_map (λ c. spaced (change_text c)) changes.now) }
{
    for change in changes {
        write!(text, " {change}")?;
    }
    Ok(())
}

fn add_packages(text: &mut String, packages: &[PackageInfo]) -> Result<(), AllocError>
    ensures { OnOk result (string_bytes text.new
        ≡ string_bytes text.old ++ flat_map (λ p. spaced (package_text p)) packages.now) }
{
    for package in packages {
        write!(text, " {package}")?;
    }
    Ok(())
}

/// Adds lines of the history. The sum of two numbers of 64 bits is printed as it is.
fn add_history(text: &mut String, start: u64, lines: &[Line]) -> Result<(), AllocError>
    ensures { OnOk result (string_bytes text.new
        ≡ string_bytes text.old ++ flat_map (λ line. spaced (history_text start line)) lines.now) }
{
    for line in lines {
        let time = u128::from(start) + u128::from(line.place);
        let happened = line.happened;
        write!(text, " {time}/{happened}")?;
    }
    Ok(())
}

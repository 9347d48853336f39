//! Tests of lists of examples.

/// That a condition holds of each row of a list; a failure names the row's number.
#[macro_export]
macro_rules! each {
    ($rt:ident; $row:ident in $rows:expr => $holds:expr) => {{
        for (index, $row) in $rows.iter().enumerate() {
            assert!($rt; $holds, "example {}", index);
        }
        Ok(())
    }};
}

/// That a condition holds of each row of a list with each number of workers, which the caller imports as `WORKERS`; a failure names the row.
#[macro_export]
macro_rules! each_by_any {
    ($rt:ident; $row:ident, $workers:ident in $rows:expr => $holds:expr) => {{
        for (index, $row) in $rows.iter().enumerate() {
            for $workers in WORKERS {
                assert!($rt; $holds, "example {}", index);
            }
        }
        Ok(())
    }};
}

/// That each link of a list leaves what it should, with each number of workers.
#[macro_export]
macro_rules! each_links {
    ($rt:ident; $stores:expr, $links:expr) => {{
        for (index, link) in $links.iter().enumerate() {
            assert!($rt; $crate::is_linked_by_any(&$rt, $rt.alloc(), $stores, link)?, "example {}", index);
        }
        Ok(())
    }};
}

/// That each command of a list links nothing and leaves its line, with each number of workers.
#[macro_export]
macro_rules! each_is_refused {
    ($rt:ident; $stores:expr, $refusals:expr) => {{
        for (index, refusal) in $refusals.iter().enumerate() {
            assert!($rt; $crate::is_refused_by_any(&$rt, $rt.alloc(), $stores, refusal)?, "example {}", index);
        }
        Ok(())
    }};
}

use fixed_mat::{
    COEF, Coef, Coefs, Cols, Mat, OverLimit, Range, ceil_s, dot, residue, rnd, rounded,
    row_times_vector,
};
use std::test::Fail;

#[test]
fn rounds_halves_upwards(rt: HostRuntime) {
    for (number, nearest, left) in [
        (1_500_000_000, 2, 500_000_000),
        (-1_500_000_000, -1, 500_000_000),
        (-1_500_000_001, -2, 499_999_999),
        (
            20_000_000_000_000_000_000_499_999_999,
            20_000_000_000_000_000_000,
            499_999_999,
        ),
    ] {
        assert_eq!(rt; rnd(number), nearest);
        assert_eq!(rt; residue(number), left);
        assert_eq!(rt; rounded(number).nearest, nearest);
    }
    assert_eq!(rt; ceil_s(0), 0);
    assert_eq!(rt; ceil_s(1), 1);
}

#[test]
fn an_entry_past_the_limit_is_refused(rt: HostRuntime) -> Result<(), Fail> {
    let limit = COEF as i128;
    let mut mat: Mat<1, 1, Coef> = Mat::zero();
    mat.set(0, 0, limit)?;
    assert!(rt;
        matches!(
            mat.set(0, 0, limit + 1),
            Err(OverLimit {
                v: 1_000_000_000_001
            })
        )
    );
    assert_eq!(rt; i128::from(mat.at(0, 0)), limit);
    let mut coefs = Coefs::new();
    coefs.push(-4)?;
    coefs.push(9_999_999_999_999_999_999_996)?;
    assert!(rt; coefs.push(1).is_err());
    assert_eq!(rt;
        (coefs.len(), coefs.at(0), coefs.sum()),
        (2, -4, 10_000_000_000_000_000_000_000)
    );
    Ok(())
}

#[test]
fn columns_are_changed_in_place(rt: HostRuntime) -> Result<(), Fail> {
    let mut mat: Mat<2, 1, Range> = Mat::zero();
    mat.set(0, 0, 3)?;
    mat.set(1, 0, -4)?;
    let mut cols: Cols<2> = Cols::new();
    cols.push(&mat);
    cols.push_diagonal(1, 5);
    cols.push_from(&mat.copy(), 0);
    cols.replace(0, [7, 8].as_slice());
    cols.copy_down(2, 1);
    cols.truncate(2);
    let cols = cols.copy();
    assert_eq!(rt;
        (cols.len(), cols.at(0, 0), cols.at(1, 1), cols.mag(0)),
        (2, 7, -4, 10)
    );
    let mut row: Mat<1, 2, Coef> = Mat::zero();
    row.replace([2, 3].as_slice());
    let products = [
        dot(&row, &cols, 0),
        dot(&row, &cols, 1),
        row_times_vector(&row, 0, &mat),
    ];
    assert_eq!(rt; products, [38, -6, -6]);
    Ok(())
}

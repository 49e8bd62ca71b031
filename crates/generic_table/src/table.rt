//! The table. `tools/op-table --write` makes this file.

use crate::traits::Traits;

const DOMINANCE_REGIONS: Traits = Traits {
    terminator: false,
    no_terminator: false,
    dominance: true,
    pure_operation: false,
    symbol: false,
    regions: true,
};

const DOMINANCE_SYMBOL_REGIONS: Traits = Traits {
    terminator: false,
    no_terminator: false,
    dominance: true,
    pure_operation: false,
    symbol: true,
    regions: true,
};

const NO_TERMINATOR_DOMINANCE_REGIONS: Traits = Traits {
    terminator: false,
    no_terminator: true,
    dominance: true,
    pure_operation: false,
    symbol: false,
    regions: true,
};

const NO_TERMINATOR_DOMINANCE_SYMBOL_REGIONS: Traits = Traits {
    terminator: false,
    no_terminator: true,
    dominance: true,
    pure_operation: false,
    symbol: true,
    regions: true,
};

const NO_TERMINATOR_REGIONS: Traits = Traits {
    terminator: false,
    no_terminator: true,
    dominance: false,
    pure_operation: false,
    symbol: false,
    regions: true,
};

const NO_TERMINATOR_SYMBOL_REGIONS: Traits = Traits {
    terminator: false,
    no_terminator: true,
    dominance: false,
    pure_operation: false,
    symbol: true,
    regions: true,
};

const PURE_OPERATION: Traits = Traits {
    terminator: false,
    no_terminator: false,
    dominance: false,
    pure_operation: true,
    symbol: false,
    regions: false,
};

const TERMINATOR: Traits = Traits {
    terminator: true,
    no_terminator: false,
    dominance: false,
    pure_operation: false,
    symbol: false,
    regions: false,
};

const TERMINATOR_DOMINANCE_REGIONS: Traits = Traits {
    terminator: true,
    no_terminator: false,
    dominance: true,
    pure_operation: false,
    symbol: false,
    regions: true,
};

const TERMINATOR_NO_TERMINATOR_DOMINANCE_REGIONS: Traits = Traits {
    terminator: true,
    no_terminator: true,
    dominance: true,
    pure_operation: false,
    symbol: false,
    regions: true,
};

const TERMINATOR_NO_TERMINATOR_REGIONS: Traits = Traits {
    terminator: true,
    no_terminator: true,
    dominance: false,
    pure_operation: false,
    symbol: false,
    regions: true,
};

/// The names of the operations one after the other, by rising names.
pub(crate) static NAMES: [u8; 14854] = *b"\
    acc.data\
    acc.loop\
    acc.parallel\
    acc.terminator\
    acc.yield\
    affine.apply\
    affine.delinearize_index\
    affine.for\
    affine.if\
    affine.max\
    affine.min\
    affine.parallel\
    affine.yield\
    amdgpu.mfma\
    amx.tile_load\
    amx.tile_mulf\
    amx.tile_muli\
    amx.tile_zero\
    arith.addf\
    arith.addi\
    arith.addui_extended\
    arith.andi\
    arith.bitcast\
    arith.cmpf\
    arith.cmpi\
    arith.constant\
    arith.divf\
    arith.extf\
    arith.extsi\
    arith.extui\
    arith.floordivsi\
    arith.fptosi\
    arith.fptoui\
    arith.index_cast\
    arith.index_castui\
    arith.maxf\
    arith.maxsi\
    arith.maxui\
    arith.minf\
    arith.minsi\
    arith.minui\
    arith.mulf\
    arith.muli\
    arith.mulsi_extended\
    arith.mului_extended\
    arith.negf\
    arith.ori\
    arith.remf\
    arith.remsi\
    arith.remui\
    arith.select\
    arith.shli\
    arith.shrsi\
    arith.shrui\
    arith.sitofp\
    arith.subf\
    arith.subi\
    arith.truncf\
    arith.trunci\
    arith.uitofp\
    arith.xori\
    arm_neon.2d.sdot\
    arm_neon.intr.sdot\
    arm_neon.intr.smull\
    arm_sve.sdot\
    arm_sve.smmla\
    arm_sve.udot\
    arm_sve.ummla\
    async.coro.suspend\
    async.create_group\
    async.execute\
    async.func\
    async.return\
    async.yield\
    bufferization.to_memref\
    builtin.module\
    builtin.unrealized_conversion_cast\
    cf.br\
    cf.cond_br\
    cf.switch\
    complex.abs\
    complex.add\
    complex.angle\
    complex.atan2\
    complex.conj\
    complex.constant\
    complex.cos\
    complex.create\
    complex.div\
    complex.eq\
    complex.exp\
    complex.expm1\
    complex.im\
    complex.log\
    complex.log1p\
    complex.mul\
    complex.neg\
    complex.neq\
    complex.pow\
    complex.re\
    complex.rsqrt\
    complex.sign\
    complex.sin\
    complex.sqrt\
    complex.sub\
    complex.tan\
    complex.tanh\
    func.constant\
    func.func\
    func.return\
    gpu.all_reduce\
    gpu.block_dim\
    gpu.block_id\
    gpu.func\
    gpu.global_id\
    gpu.grid_dim\
    gpu.lane_id\
    gpu.launch\
    gpu.module\
    gpu.module_end\
    gpu.num_subgroups\
    gpu.return\
    gpu.shuffle\
    gpu.subgroup_id\
    gpu.subgroup_mma_compute\
    gpu.subgroup_mma_constant_matrix\
    gpu.subgroup_mma_elementwise\
    gpu.subgroup_size\
    gpu.terminator\
    gpu.thread_id\
    gpu.yield\
    index.add\
    index.and\
    index.bool.constant\
    index.casts\
    index.castu\
    index.ceildivs\
    index.ceildivu\
    index.cmp\
    index.constant\
    index.divs\
    index.divu\
    index.floordivs\
    index.maxs\
    index.maxu\
    index.mins\
    index.minu\
    index.mul\
    index.or\
    index.rems\
    index.remu\
    index.shl\
    index.shrs\
    index.shru\
    index.sizeof\
    index.sub\
    index.xor\
    linalg.batch_matmul\
    linalg.batch_matmul_transpose_b\
    linalg.batch_matvec\
    linalg.batch_reduce_matmul\
    linalg.broadcast\
    linalg.conv_1d\
    linalg.conv_1d_ncw_fcw\
    linalg.conv_1d_nwc_wcf\
    linalg.conv_2d\
    linalg.conv_2d_nchw_fchw\
    linalg.conv_2d_ngchw_fgchw\
    linalg.conv_2d_nhwc_fhwc\
    linalg.conv_2d_nhwc_hwcf\
    linalg.conv_2d_nhwc_hwcf_q\
    linalg.conv_3d\
    linalg.conv_3d_ndhwc_dhwcf\
    linalg.conv_3d_ndhwc_dhwcf_q\
    linalg.copy\
    linalg.depthwise_conv_1d_nwc_wc\
    linalg.depthwise_conv_1d_nwc_wcm\
    linalg.depthwise_conv_2d_nchw_chw\
    linalg.depthwise_conv_2d_nhwc_hwc\
    linalg.depthwise_conv_2d_nhwc_hwc_q\
    linalg.depthwise_conv_2d_nhwc_hwcm\
    linalg.depthwise_conv_2d_nhwc_hwcm_q\
    linalg.depthwise_conv_3d_ndhwc_dhwc\
    linalg.depthwise_conv_3d_ndhwc_dhwcm\
    linalg.dot\
    linalg.elemwise_binary\
    linalg.elemwise_unary\
    linalg.fill\
    linalg.fill_rng_2d\
    linalg.generic\
    linalg.index\
    linalg.map\
    linalg.matmul\
    linalg.matmul_transpose_b\
    linalg.matmul_unsigned\
    linalg.matvec\
    linalg.mmt4d\
    linalg.pooling_nchw_max\
    linalg.pooling_nchw_sum\
    linalg.pooling_ncw_max\
    linalg.pooling_ncw_sum\
    linalg.pooling_ndhwc_max\
    linalg.pooling_ndhwc_min\
    linalg.pooling_ndhwc_sum\
    linalg.pooling_nhwc_max\
    linalg.pooling_nhwc_max_unsigned\
    linalg.pooling_nhwc_min\
    linalg.pooling_nhwc_min_unsigned\
    linalg.pooling_nhwc_sum\
    linalg.pooling_nwc_max\
    linalg.pooling_nwc_max_unsigned\
    linalg.pooling_nwc_min\
    linalg.pooling_nwc_min_unsigned\
    linalg.pooling_nwc_sum\
    linalg.quantized_batch_matmul\
    linalg.quantized_matmul\
    linalg.reduce\
    linalg.transpose\
    linalg.vecmat\
    linalg.yield\
    llvm.add\
    llvm.addrspacecast\
    llvm.and\
    llvm.ashr\
    llvm.bitcast\
    llvm.br\
    llvm.cond_br\
    llvm.extractelement\
    llvm.extractvalue\
    llvm.fadd\
    llvm.fcmp\
    llvm.fdiv\
    llvm.fmul\
    llvm.fneg\
    llvm.fpext\
    llvm.fptosi\
    llvm.fptoui\
    llvm.fptrunc\
    llvm.frem\
    llvm.fsub\
    llvm.func\
    llvm.getelementptr\
    llvm.icmp\
    llvm.insertelement\
    llvm.insertvalue\
    llvm.intr.abs\
    llvm.intr.bitreverse\
    llvm.intr.ceil\
    llvm.intr.copysign\
    llvm.intr.cos\
    llvm.intr.ctlz\
    llvm.intr.ctpop\
    llvm.intr.cttz\
    llvm.intr.exp\
    llvm.intr.exp2\
    llvm.intr.experimental.stepvector\
    llvm.intr.fabs\
    llvm.intr.floor\
    llvm.intr.fma\
    llvm.intr.fmuladd\
    llvm.intr.get.active.lane.mask\
    llvm.intr.is.fpclass\
    llvm.intr.log\
    llvm.intr.log10\
    llvm.intr.log2\
    llvm.intr.maximum\
    llvm.intr.maxnum\
    llvm.intr.minimum\
    llvm.intr.minnum\
    llvm.intr.pow\
    llvm.intr.powi\
    llvm.intr.round\
    llvm.intr.roundeven\
    llvm.intr.sin\
    llvm.intr.smax\
    llvm.intr.smin\
    llvm.intr.sqrt\
    llvm.intr.trunc\
    llvm.intr.umax\
    llvm.intr.umin\
    llvm.intr.vector.extract\
    llvm.intr.vector.insert\
    llvm.intr.vector.reduce.add\
    llvm.intr.vector.reduce.and\
    llvm.intr.vector.reduce.fadd\
    llvm.intr.vector.reduce.fmax\
    llvm.intr.vector.reduce.fmin\
    llvm.intr.vector.reduce.fmul\
    llvm.intr.vector.reduce.mul\
    llvm.intr.vector.reduce.or\
    llvm.intr.vector.reduce.smax\
    llvm.intr.vector.reduce.smin\
    llvm.intr.vector.reduce.umax\
    llvm.intr.vector.reduce.umin\
    llvm.intr.vector.reduce.xor\
    llvm.intr.vp.add\
    llvm.intr.vp.and\
    llvm.intr.vp.ashr\
    llvm.intr.vp.fadd\
    llvm.intr.vp.fdiv\
    llvm.intr.vp.fma\
    llvm.intr.vp.fmul\
    llvm.intr.vp.fneg\
    llvm.intr.vp.fpext\
    llvm.intr.vp.fptosi\
    llvm.intr.vp.fptoui\
    llvm.intr.vp.fptrunc\
    llvm.intr.vp.frem\
    llvm.intr.vp.fsub\
    llvm.intr.vp.inttoptr\
    llvm.intr.vp.lshr\
    llvm.intr.vp.merge\
    llvm.intr.vp.mul\
    llvm.intr.vp.or\
    llvm.intr.vp.ptrtoint\
    llvm.intr.vp.reduce.add\
    llvm.intr.vp.reduce.and\
    llvm.intr.vp.reduce.fadd\
    llvm.intr.vp.reduce.fmax\
    llvm.intr.vp.reduce.fmin\
    llvm.intr.vp.reduce.fmul\
    llvm.intr.vp.reduce.mul\
    llvm.intr.vp.reduce.or\
    llvm.intr.vp.reduce.smax\
    llvm.intr.vp.reduce.smin\
    llvm.intr.vp.reduce.umax\
    llvm.intr.vp.reduce.umin\
    llvm.intr.vp.reduce.xor\
    llvm.intr.vp.sdiv\
    llvm.intr.vp.select\
    llvm.intr.vp.sext\
    llvm.intr.vp.shl\
    llvm.intr.vp.sitofp\
    llvm.intr.vp.srem\
    llvm.intr.vp.sub\
    llvm.intr.vp.trunc\
    llvm.intr.vp.udiv\
    llvm.intr.vp.uitofp\
    llvm.intr.vp.urem\
    llvm.intr.vp.xor\
    llvm.intr.vp.zext\
    llvm.inttoptr\
    llvm.invoke\
    llvm.lshr\
    llvm.metadata\
    llvm.mlir.addressof\
    llvm.mlir.constant\
    llvm.mlir.global\
    llvm.mlir.null\
    llvm.mlir.undef\
    llvm.mul\
    llvm.or\
    llvm.ptrtoint\
    llvm.resume\
    llvm.return\
    llvm.sdiv\
    llvm.select\
    llvm.sext\
    llvm.shl\
    llvm.shufflevector\
    llvm.sitofp\
    llvm.srem\
    llvm.sub\
    llvm.switch\
    llvm.trunc\
    llvm.udiv\
    llvm.uitofp\
    llvm.unreachable\
    llvm.urem\
    llvm.xor\
    llvm.zext\
    math.absf\
    math.absi\
    math.atan\
    math.atan2\
    math.cbrt\
    math.ceil\
    math.copysign\
    math.cos\
    math.ctlz\
    math.ctpop\
    math.cttz\
    math.erf\
    math.exp\
    math.exp2\
    math.expm1\
    math.floor\
    math.fma\
    math.fpowi\
    math.ipowi\
    math.log\
    math.log10\
    math.log1p\
    math.log2\
    math.powf\
    math.round\
    math.roundeven\
    math.rsqrt\
    math.sin\
    math.sqrt\
    math.tan\
    math.tanh\
    math.trunc\
    memref.alloca_scope\
    memref.alloca_scope.return\
    memref.atomic_yield\
    memref.cast\
    memref.collapse_shape\
    memref.expand_shape\
    memref.extract_aligned_pointer_as_index\
    memref.extract_strided_metadata\
    memref.generic_atomic_rmw\
    memref.get_global\
    memref.rank\
    memref.reinterpret_cast\
    memref.reshape\
    memref.subview\
    memref.transpose\
    memref.view\
    ml_program.global_load_const\
    ml_program.output\
    ml_program.return\
    ml_program.token\
    nvgpu.mma.sp.sync\
    nvgpu.mma.sync\
    nvvm.rcp.approx.ftz.f\
    nvvm.read.ptx.sreg.ctaid.x\
    nvvm.read.ptx.sreg.ctaid.y\
    nvvm.read.ptx.sreg.ctaid.z\
    nvvm.read.ptx.sreg.laneid\
    nvvm.read.ptx.sreg.nctaid.x\
    nvvm.read.ptx.sreg.nctaid.y\
    nvvm.read.ptx.sreg.nctaid.z\
    nvvm.read.ptx.sreg.ntid.x\
    nvvm.read.ptx.sreg.ntid.y\
    nvvm.read.ptx.sreg.ntid.z\
    nvvm.read.ptx.sreg.tid.x\
    nvvm.read.ptx.sreg.tid.y\
    nvvm.read.ptx.sreg.tid.z\
    nvvm.read.ptx.sreg.warpsize\
    omp.atomic.capture\
    omp.atomic.update\
    omp.critical\
    omp.master\
    omp.ordered_region\
    omp.parallel\
    omp.reduction.declare\
    omp.section\
    omp.sections\
    omp.simdloop\
    omp.single\
    omp.target\
    omp.target_data\
    omp.task\
    omp.taskgroup\
    omp.taskloop\
    omp.terminator\
    omp.wsloop\
    omp.yield\
    pdl.pattern\
    pdl.range\
    pdl.result\
    pdl.results\
    pdl.rewrite\
    pdl_interp.apply_constraint\
    pdl_interp.are_equal\
    pdl_interp.branch\
    pdl_interp.check_attribute\
    pdl_interp.check_operand_count\
    pdl_interp.check_operation_name\
    pdl_interp.check_result_count\
    pdl_interp.check_type\
    pdl_interp.check_types\
    pdl_interp.continue\
    pdl_interp.create_attribute\
    pdl_interp.create_range\
    pdl_interp.create_type\
    pdl_interp.create_types\
    pdl_interp.extract\
    pdl_interp.finalize\
    pdl_interp.foreach\
    pdl_interp.func\
    pdl_interp.get_attribute\
    pdl_interp.get_attribute_type\
    pdl_interp.get_defining_op\
    pdl_interp.get_operand\
    pdl_interp.get_operands\
    pdl_interp.get_result\
    pdl_interp.get_results\
    pdl_interp.get_users\
    pdl_interp.get_value_type\
    pdl_interp.is_not_null\
    pdl_interp.record_match\
    pdl_interp.switch_attribute\
    pdl_interp.switch_operand_count\
    pdl_interp.switch_operation_name\
    pdl_interp.switch_result_count\
    pdl_interp.switch_type\
    pdl_interp.switch_types\
    quant.dcast\
    quant.qcast\
    quant.scast\
    rocdl.grid.dim.x\
    rocdl.grid.dim.y\
    rocdl.grid.dim.z\
    rocdl.workgroup.dim.x\
    rocdl.workgroup.dim.y\
    rocdl.workgroup.dim.z\
    rocdl.workgroup.id.x\
    rocdl.workgroup.id.y\
    rocdl.workgroup.id.z\
    rocdl.workitem.id.x\
    rocdl.workitem.id.y\
    rocdl.workitem.id.z\
    scf.condition\
    scf.execute_region\
    scf.for\
    scf.foreach_thread\
    scf.foreach_thread.perform_concurrently\
    scf.if\
    scf.index_switch\
    scf.parallel\
    scf.reduce\
    scf.reduce.return\
    scf.while\
    scf.yield\
    shape.add\
    shape.any\
    shape.assuming\
    shape.assuming_all\
    shape.assuming_yield\
    shape.broadcast\
    shape.concat\
    shape.const_shape\
    shape.const_size\
    shape.const_witness\
    shape.dim\
    shape.div\
    shape.from_extent_tensor\
    shape.from_extents\
    shape.func\
    shape.function_library\
    shape.get_extent\
    shape.index_to_size\
    shape.max\
    shape.min\
    shape.mul\
    shape.num_elements\
    shape.rank\
    shape.reduce\
    shape.return\
    shape.shape_eq\
    shape.shape_of\
    shape.size_to_index\
    shape.split_at\
    shape.to_extent_tensor\
    shape.value_as_shape\
    shape.value_of\
    shape.with_shape\
    shape.yield\
    sparse_tensor.binary\
    sparse_tensor.concatenate\
    sparse_tensor.convert\
    sparse_tensor.foreach\
    sparse_tensor.indices\
    sparse_tensor.indices_buffer\
    sparse_tensor.new\
    sparse_tensor.number_of_entries\
    sparse_tensor.pointers\
    sparse_tensor.reduce\
    sparse_tensor.select\
    sparse_tensor.storage_specifier.get\
    sparse_tensor.storage_specifier.init\
    sparse_tensor.storage_specifier.set\
    sparse_tensor.unary\
    sparse_tensor.values\
    sparse_tensor.yield\
    spirv.AccessChain\
    spirv.BitCount\
    spirv.BitFieldInsert\
    spirv.BitFieldSExtract\
    spirv.BitFieldUExtract\
    spirv.BitReverse\
    spirv.Bitcast\
    spirv.BitwiseAnd\
    spirv.BitwiseOr\
    spirv.BitwiseXor\
    spirv.Branch\
    spirv.BranchConditional\
    spirv.CL.ceil\
    spirv.CL.cos\
    spirv.CL.erf\
    spirv.CL.exp\
    spirv.CL.fabs\
    spirv.CL.floor\
    spirv.CL.fma\
    spirv.CL.fmax\
    spirv.CL.fmin\
    spirv.CL.log\
    spirv.CL.pow\
    spirv.CL.rint\
    spirv.CL.round\
    spirv.CL.rsqrt\
    spirv.CL.s_abs\
    spirv.CL.s_max\
    spirv.CL.s_min\
    spirv.CL.sin\
    spirv.CL.sqrt\
    spirv.CL.tanh\
    spirv.CL.u_max\
    spirv.CL.u_min\
    spirv.CompositeConstruct\
    spirv.CompositeExtract\
    spirv.CompositeInsert\
    spirv.Constant\
    spirv.ConvertFToS\
    spirv.ConvertFToU\
    spirv.ConvertSToF\
    spirv.ConvertUToF\
    spirv.FAdd\
    spirv.FConvert\
    spirv.FDiv\
    spirv.FMod\
    spirv.FMul\
    spirv.FNegate\
    spirv.FOrdEqual\
    spirv.FOrdGreaterThan\
    spirv.FOrdGreaterThanEqual\
    spirv.FOrdLessThan\
    spirv.FOrdLessThanEqual\
    spirv.FOrdNotEqual\
    spirv.FRem\
    spirv.FSub\
    spirv.FUnordEqual\
    spirv.FUnordGreaterThan\
    spirv.FUnordGreaterThanEqual\
    spirv.FUnordLessThan\
    spirv.FUnordLessThanEqual\
    spirv.FUnordNotEqual\
    spirv.GL.Acos\
    spirv.GL.Asin\
    spirv.GL.Atan\
    spirv.GL.Ceil\
    spirv.GL.Cos\
    spirv.GL.Cosh\
    spirv.GL.Exp\
    spirv.GL.FAbs\
    spirv.GL.FClamp\
    spirv.GL.FMax\
    spirv.GL.FMin\
    spirv.GL.FMix\
    spirv.GL.FSign\
    spirv.GL.FindUMsb\
    spirv.GL.Floor\
    spirv.GL.Fma\
    spirv.GL.FrexpStruct\
    spirv.GL.InverseSqrt\
    spirv.GL.Ldexp\
    spirv.GL.Log\
    spirv.GL.Pow\
    spirv.GL.Round\
    spirv.GL.RoundEven\
    spirv.GL.SAbs\
    spirv.GL.SClamp\
    spirv.GL.SMax\
    spirv.GL.SMin\
    spirv.GL.SSign\
    spirv.GL.Sin\
    spirv.GL.Sinh\
    spirv.GL.Sqrt\
    spirv.GL.Tan\
    spirv.GL.Tanh\
    spirv.GL.UClamp\
    spirv.GL.UMax\
    spirv.GL.UMin\
    spirv.GenericCastToPtr\
    spirv.GenericCastToPtrExplicit\
    spirv.GroupBroadcast\
    spirv.GroupFAdd\
    spirv.GroupFMax\
    spirv.GroupFMin\
    spirv.GroupIAdd\
    spirv.GroupNonUniformBroadcast\
    spirv.GroupNonUniformShuffle\
    spirv.GroupNonUniformShuffleDown\
    spirv.GroupNonUniformShuffleUp\
    spirv.GroupNonUniformShuffleXor\
    spirv.GroupSMax\
    spirv.GroupSMin\
    spirv.GroupUMax\
    spirv.GroupUMin\
    spirv.IAdd\
    spirv.IAddCarry\
    spirv.IEqual\
    spirv.IMul\
    spirv.INTEL.JointMatrixMad\
    spirv.INTEL.JointMatrixWorkItemLength\
    spirv.INotEqual\
    spirv.ISub\
    spirv.ISubBorrow\
    spirv.Image\
    spirv.ImageDrefGather\
    spirv.ImageQuerySize\
    spirv.InBoundsPtrAccessChain\
    spirv.IsInf\
    spirv.IsNan\
    spirv.KHR.GroupFMul\
    spirv.KHR.GroupIMul\
    spirv.LogicalAnd\
    spirv.LogicalEqual\
    spirv.LogicalNot\
    spirv.LogicalNotEqual\
    spirv.LogicalOr\
    spirv.MatrixTimesMatrix\
    spirv.MatrixTimesScalar\
    spirv.NV.CooperativeMatrixLength\
    spirv.NV.CooperativeMatrixMulAdd\
    spirv.Not\
    spirv.Ordered\
    spirv.PtrAccessChain\
    spirv.PtrCastToGeneric\
    spirv.Return\
    spirv.ReturnValue\
    spirv.SConvert\
    spirv.SDiv\
    spirv.SDot\
    spirv.SDotAccSat\
    spirv.SGreaterThan\
    spirv.SGreaterThanEqual\
    spirv.SLessThan\
    spirv.SLessThanEqual\
    spirv.SMod\
    spirv.SMulExtended\
    spirv.SNegate\
    spirv.SRem\
    spirv.SUDot\
    spirv.SUDotAccSat\
    spirv.Select\
    spirv.ShiftLeftLogical\
    spirv.ShiftRightArithmetic\
    spirv.ShiftRightLogical\
    spirv.SpecConstantOperation\
    spirv.Transpose\
    spirv.UConvert\
    spirv.UDiv\
    spirv.UDot\
    spirv.UDotAccSat\
    spirv.UGreaterThan\
    spirv.UGreaterThanEqual\
    spirv.ULessThan\
    spirv.ULessThanEqual\
    spirv.UMod\
    spirv.UMulExtended\
    spirv.Undef\
    spirv.Unordered\
    spirv.Unreachable\
    spirv.VectorExtractDynamic\
    spirv.VectorInsertDynamic\
    spirv.VectorShuffle\
    spirv.VectorTimesScalar\
    spirv.func\
    spirv.mlir.addressof\
    spirv.mlir.loop\
    spirv.mlir.merge\
    spirv.mlir.referenceof\
    spirv.mlir.selection\
    spirv.mlir.yield\
    spirv.module\
    tensor.cast\
    tensor.collapse_shape\
    tensor.empty\
    tensor.expand_shape\
    tensor.extract\
    tensor.extract_slice\
    tensor.from_elements\
    tensor.gather\
    tensor.generate\
    tensor.insert\
    tensor.insert_slice\
    tensor.pad\
    tensor.rank\
    tensor.reshape\
    tensor.scatter\
    tensor.splat\
    tensor.yield\
    tosa.abs\
    tosa.add\
    tosa.apply_scale\
    tosa.argmax\
    tosa.arithmetic_right_shift\
    tosa.avg_pool2d\
    tosa.bitwise_and\
    tosa.bitwise_not\
    tosa.bitwise_or\
    tosa.bitwise_xor\
    tosa.cast\
    tosa.ceil\
    tosa.clamp\
    tosa.clz\
    tosa.concat\
    tosa.cond_if\
    tosa.const\
    tosa.conv2d\
    tosa.conv3d\
    tosa.depthwise_conv2d\
    tosa.div\
    tosa.equal\
    tosa.exp\
    tosa.floor\
    tosa.fully_connected\
    tosa.gather\
    tosa.greater\
    tosa.greater_equal\
    tosa.identity\
    tosa.log\
    tosa.logical_and\
    tosa.logical_left_shift\
    tosa.logical_not\
    tosa.logical_or\
    tosa.logical_right_shift\
    tosa.logical_xor\
    tosa.matmul\
    tosa.max_pool2d\
    tosa.maximum\
    tosa.minimum\
    tosa.mul\
    tosa.negate\
    tosa.pad\
    tosa.pow\
    tosa.reciprocal\
    tosa.reduce_all\
    tosa.reduce_any\
    tosa.reduce_max\
    tosa.reduce_min\
    tosa.reduce_prod\
    tosa.reduce_sum\
    tosa.rescale\
    tosa.reshape\
    tosa.resize\
    tosa.reverse\
    tosa.rfft2d\
    tosa.rsqrt\
    tosa.scatter\
    tosa.select\
    tosa.sigmoid\
    tosa.slice\
    tosa.sub\
    tosa.table\
    tosa.tanh\
    tosa.tile\
    tosa.transpose\
    tosa.transpose_conv2d\
    tosa.while_loop\
    tosa.yield\
    transform.alternatives\
    transform.foreach\
    transform.sequence\
    transform.structured.replace\
    transform.with_pdl_patterns\
    transform.yield\
    vector.bitcast\
    vector.broadcast\
    vector.constant_mask\
    vector.contract\
    vector.create_mask\
    vector.extract\
    vector.extract_strided_slice\
    vector.extractelement\
    vector.flat_transpose\
    vector.fma\
    vector.insert\
    vector.insert_strided_slice\
    vector.insertelement\
    vector.mask\
    vector.matrix_multiply\
    vector.multi_reduction\
    vector.outerproduct\
    vector.reduction\
    vector.reshape\
    vector.scalable.extract\
    vector.scalable.insert\
    vector.scan\
    vector.shape_cast\
    vector.shuffle\
    vector.splat\
    vector.transpose\
    vector.type_cast\
    vector.vscale\
    vector.warp_execute_on_lane_0\
    vector.yield\
    x86vector.avx.intr.dot\
    x86vector.avx.intr.dp.ps.256\
    x86vector.avx.intr.rsqrt.ps.256\
    x86vector.avx.rsqrt\
    x86vector.avx512.intr.mask.compress\
    x86vector.avx512.intr.mask.rndscale.pd.512\
    x86vector.avx512.intr.mask.rndscale.ps.512\
    x86vector.avx512.intr.mask.scalef.pd.512\
    x86vector.avx512.intr.mask.scalef.ps.512\
    x86vector.avx512.intr.vp2intersect.d.512\
    x86vector.avx512.intr.vp2intersect.q.512\
    x86vector.avx512.mask.compress\
    x86vector.avx512.mask.rndscale\
    x86vector.avx512.mask.scalef\
    x86vector.avx512.vp2intersect\
";

/// Where the name of each operation ends, and what MLIR says of it.
pub(crate) static ROWS: [(u16, Traits); 905] = [
    (8, DOMINANCE_REGIONS), // acc.data
    (16, DOMINANCE_REGIONS), // acc.loop
    (28, DOMINANCE_REGIONS), // acc.parallel
    (42, TERMINATOR), // acc.terminator
    (51, TERMINATOR), // acc.yield
    (63, PURE_OPERATION), // affine.apply
    (87, PURE_OPERATION), // affine.delinearize_index
    (97, DOMINANCE_REGIONS), // affine.for
    (106, DOMINANCE_REGIONS), // affine.if
    (116, PURE_OPERATION), // affine.max
    (126, PURE_OPERATION), // affine.min
    (141, DOMINANCE_REGIONS), // affine.parallel
    (153, TERMINATOR), // affine.yield
    (164, PURE_OPERATION), // amdgpu.mfma
    (177, PURE_OPERATION), // amx.tile_load
    (190, PURE_OPERATION), // amx.tile_mulf
    (203, PURE_OPERATION), // amx.tile_muli
    (216, PURE_OPERATION), // amx.tile_zero
    (226, PURE_OPERATION), // arith.addf
    (236, PURE_OPERATION), // arith.addi
    (256, PURE_OPERATION), // arith.addui_extended
    (266, PURE_OPERATION), // arith.andi
    (279, PURE_OPERATION), // arith.bitcast
    (289, PURE_OPERATION), // arith.cmpf
    (299, PURE_OPERATION), // arith.cmpi
    (313, PURE_OPERATION), // arith.constant
    (323, PURE_OPERATION), // arith.divf
    (333, PURE_OPERATION), // arith.extf
    (344, PURE_OPERATION), // arith.extsi
    (355, PURE_OPERATION), // arith.extui
    (371, PURE_OPERATION), // arith.floordivsi
    (383, PURE_OPERATION), // arith.fptosi
    (395, PURE_OPERATION), // arith.fptoui
    (411, PURE_OPERATION), // arith.index_cast
    (429, PURE_OPERATION), // arith.index_castui
    (439, PURE_OPERATION), // arith.maxf
    (450, PURE_OPERATION), // arith.maxsi
    (461, PURE_OPERATION), // arith.maxui
    (471, PURE_OPERATION), // arith.minf
    (482, PURE_OPERATION), // arith.minsi
    (493, PURE_OPERATION), // arith.minui
    (503, PURE_OPERATION), // arith.mulf
    (513, PURE_OPERATION), // arith.muli
    (533, PURE_OPERATION), // arith.mulsi_extended
    (553, PURE_OPERATION), // arith.mului_extended
    (563, PURE_OPERATION), // arith.negf
    (572, PURE_OPERATION), // arith.ori
    (582, PURE_OPERATION), // arith.remf
    (593, PURE_OPERATION), // arith.remsi
    (604, PURE_OPERATION), // arith.remui
    (616, PURE_OPERATION), // arith.select
    (626, PURE_OPERATION), // arith.shli
    (637, PURE_OPERATION), // arith.shrsi
    (648, PURE_OPERATION), // arith.shrui
    (660, PURE_OPERATION), // arith.sitofp
    (670, PURE_OPERATION), // arith.subf
    (680, PURE_OPERATION), // arith.subi
    (692, PURE_OPERATION), // arith.truncf
    (704, PURE_OPERATION), // arith.trunci
    (716, PURE_OPERATION), // arith.uitofp
    (726, PURE_OPERATION), // arith.xori
    (742, PURE_OPERATION), // arm_neon.2d.sdot
    (760, PURE_OPERATION), // arm_neon.intr.sdot
    (779, PURE_OPERATION), // arm_neon.intr.smull
    (791, PURE_OPERATION), // arm_sve.sdot
    (804, PURE_OPERATION), // arm_sve.smmla
    (816, PURE_OPERATION), // arm_sve.udot
    (829, PURE_OPERATION), // arm_sve.ummla
    (847, TERMINATOR), // async.coro.suspend
    (865, PURE_OPERATION), // async.create_group
    (878, DOMINANCE_REGIONS), // async.execute
    (888, DOMINANCE_SYMBOL_REGIONS), // async.func
    (900, TERMINATOR), // async.return
    (911, TERMINATOR), // async.yield
    (934, PURE_OPERATION), // bufferization.to_memref
    (948, NO_TERMINATOR_SYMBOL_REGIONS), // builtin.module
    (982, PURE_OPERATION), // builtin.unrealized_conversion_cast
    (987, TERMINATOR), // cf.br
    (997, TERMINATOR), // cf.cond_br
    (1006, TERMINATOR), // cf.switch
    (1017, PURE_OPERATION), // complex.abs
    (1028, PURE_OPERATION), // complex.add
    (1041, PURE_OPERATION), // complex.angle
    (1054, PURE_OPERATION), // complex.atan2
    (1066, PURE_OPERATION), // complex.conj
    (1082, PURE_OPERATION), // complex.constant
    (1093, PURE_OPERATION), // complex.cos
    (1107, PURE_OPERATION), // complex.create
    (1118, PURE_OPERATION), // complex.div
    (1128, PURE_OPERATION), // complex.eq
    (1139, PURE_OPERATION), // complex.exp
    (1152, PURE_OPERATION), // complex.expm1
    (1162, PURE_OPERATION), // complex.im
    (1173, PURE_OPERATION), // complex.log
    (1186, PURE_OPERATION), // complex.log1p
    (1197, PURE_OPERATION), // complex.mul
    (1208, PURE_OPERATION), // complex.neg
    (1219, PURE_OPERATION), // complex.neq
    (1230, PURE_OPERATION), // complex.pow
    (1240, PURE_OPERATION), // complex.re
    (1253, PURE_OPERATION), // complex.rsqrt
    (1265, PURE_OPERATION), // complex.sign
    (1276, PURE_OPERATION), // complex.sin
    (1288, PURE_OPERATION), // complex.sqrt
    (1299, PURE_OPERATION), // complex.sub
    (1310, PURE_OPERATION), // complex.tan
    (1322, PURE_OPERATION), // complex.tanh
    (1335, PURE_OPERATION), // func.constant
    (1344, DOMINANCE_SYMBOL_REGIONS), // func.func
    (1355, TERMINATOR), // func.return
    (1369, DOMINANCE_REGIONS), // gpu.all_reduce
    (1382, PURE_OPERATION), // gpu.block_dim
    (1394, PURE_OPERATION), // gpu.block_id
    (1402, DOMINANCE_SYMBOL_REGIONS), // gpu.func
    (1415, PURE_OPERATION), // gpu.global_id
    (1427, PURE_OPERATION), // gpu.grid_dim
    (1438, PURE_OPERATION), // gpu.lane_id
    (1448, DOMINANCE_REGIONS), // gpu.launch
    (1458, DOMINANCE_SYMBOL_REGIONS), // gpu.module
    (1472, TERMINATOR), // gpu.module_end
    (1489, PURE_OPERATION), // gpu.num_subgroups
    (1499, TERMINATOR), // gpu.return
    (1510, PURE_OPERATION), // gpu.shuffle
    (1525, PURE_OPERATION), // gpu.subgroup_id
    (1549, PURE_OPERATION), // gpu.subgroup_mma_compute
    (1581, PURE_OPERATION), // gpu.subgroup_mma_constant_matrix
    (1609, PURE_OPERATION), // gpu.subgroup_mma_elementwise
    (1626, PURE_OPERATION), // gpu.subgroup_size
    (1640, TERMINATOR), // gpu.terminator
    (1653, PURE_OPERATION), // gpu.thread_id
    (1662, TERMINATOR), // gpu.yield
    (1671, PURE_OPERATION), // index.add
    (1680, PURE_OPERATION), // index.and
    (1699, PURE_OPERATION), // index.bool.constant
    (1710, PURE_OPERATION), // index.casts
    (1721, PURE_OPERATION), // index.castu
    (1735, PURE_OPERATION), // index.ceildivs
    (1749, PURE_OPERATION), // index.ceildivu
    (1758, PURE_OPERATION), // index.cmp
    (1772, PURE_OPERATION), // index.constant
    (1782, PURE_OPERATION), // index.divs
    (1792, PURE_OPERATION), // index.divu
    (1807, PURE_OPERATION), // index.floordivs
    (1817, PURE_OPERATION), // index.maxs
    (1827, PURE_OPERATION), // index.maxu
    (1837, PURE_OPERATION), // index.mins
    (1847, PURE_OPERATION), // index.minu
    (1856, PURE_OPERATION), // index.mul
    (1864, PURE_OPERATION), // index.or
    (1874, PURE_OPERATION), // index.rems
    (1884, PURE_OPERATION), // index.remu
    (1893, PURE_OPERATION), // index.shl
    (1903, PURE_OPERATION), // index.shrs
    (1913, PURE_OPERATION), // index.shru
    (1925, PURE_OPERATION), // index.sizeof
    (1934, PURE_OPERATION), // index.sub
    (1943, PURE_OPERATION), // index.xor
    (1962, DOMINANCE_REGIONS), // linalg.batch_matmul
    (1993, DOMINANCE_REGIONS), // linalg.batch_matmul_transpose_b
    (2012, DOMINANCE_REGIONS), // linalg.batch_matvec
    (2038, DOMINANCE_REGIONS), // linalg.batch_reduce_matmul
    (2054, DOMINANCE_REGIONS), // linalg.broadcast
    (2068, DOMINANCE_REGIONS), // linalg.conv_1d
    (2090, DOMINANCE_REGIONS), // linalg.conv_1d_ncw_fcw
    (2112, DOMINANCE_REGIONS), // linalg.conv_1d_nwc_wcf
    (2126, DOMINANCE_REGIONS), // linalg.conv_2d
    (2150, DOMINANCE_REGIONS), // linalg.conv_2d_nchw_fchw
    (2176, DOMINANCE_REGIONS), // linalg.conv_2d_ngchw_fgchw
    (2200, DOMINANCE_REGIONS), // linalg.conv_2d_nhwc_fhwc
    (2224, DOMINANCE_REGIONS), // linalg.conv_2d_nhwc_hwcf
    (2250, DOMINANCE_REGIONS), // linalg.conv_2d_nhwc_hwcf_q
    (2264, DOMINANCE_REGIONS), // linalg.conv_3d
    (2290, DOMINANCE_REGIONS), // linalg.conv_3d_ndhwc_dhwcf
    (2318, DOMINANCE_REGIONS), // linalg.conv_3d_ndhwc_dhwcf_q
    (2329, DOMINANCE_REGIONS), // linalg.copy
    (2360, DOMINANCE_REGIONS), // linalg.depthwise_conv_1d_nwc_wc
    (2392, DOMINANCE_REGIONS), // linalg.depthwise_conv_1d_nwc_wcm
    (2425, DOMINANCE_REGIONS), // linalg.depthwise_conv_2d_nchw_chw
    (2458, DOMINANCE_REGIONS), // linalg.depthwise_conv_2d_nhwc_hwc
    (2493, DOMINANCE_REGIONS), // linalg.depthwise_conv_2d_nhwc_hwc_q
    (2527, DOMINANCE_REGIONS), // linalg.depthwise_conv_2d_nhwc_hwcm
    (2563, DOMINANCE_REGIONS), // linalg.depthwise_conv_2d_nhwc_hwcm_q
    (2598, DOMINANCE_REGIONS), // linalg.depthwise_conv_3d_ndhwc_dhwc
    (2634, DOMINANCE_REGIONS), // linalg.depthwise_conv_3d_ndhwc_dhwcm
    (2644, DOMINANCE_REGIONS), // linalg.dot
    (2666, DOMINANCE_REGIONS), // linalg.elemwise_binary
    (2687, DOMINANCE_REGIONS), // linalg.elemwise_unary
    (2698, DOMINANCE_REGIONS), // linalg.fill
    (2716, DOMINANCE_REGIONS), // linalg.fill_rng_2d
    (2730, DOMINANCE_REGIONS), // linalg.generic
    (2742, PURE_OPERATION), // linalg.index
    (2752, DOMINANCE_REGIONS), // linalg.map
    (2765, DOMINANCE_REGIONS), // linalg.matmul
    (2790, DOMINANCE_REGIONS), // linalg.matmul_transpose_b
    (2812, DOMINANCE_REGIONS), // linalg.matmul_unsigned
    (2825, DOMINANCE_REGIONS), // linalg.matvec
    (2837, DOMINANCE_REGIONS), // linalg.mmt4d
    (2860, DOMINANCE_REGIONS), // linalg.pooling_nchw_max
    (2883, DOMINANCE_REGIONS), // linalg.pooling_nchw_sum
    (2905, DOMINANCE_REGIONS), // linalg.pooling_ncw_max
    (2927, DOMINANCE_REGIONS), // linalg.pooling_ncw_sum
    (2951, DOMINANCE_REGIONS), // linalg.pooling_ndhwc_max
    (2975, DOMINANCE_REGIONS), // linalg.pooling_ndhwc_min
    (2999, DOMINANCE_REGIONS), // linalg.pooling_ndhwc_sum
    (3022, DOMINANCE_REGIONS), // linalg.pooling_nhwc_max
    (3054, DOMINANCE_REGIONS), // linalg.pooling_nhwc_max_unsigned
    (3077, DOMINANCE_REGIONS), // linalg.pooling_nhwc_min
    (3109, DOMINANCE_REGIONS), // linalg.pooling_nhwc_min_unsigned
    (3132, DOMINANCE_REGIONS), // linalg.pooling_nhwc_sum
    (3154, DOMINANCE_REGIONS), // linalg.pooling_nwc_max
    (3185, DOMINANCE_REGIONS), // linalg.pooling_nwc_max_unsigned
    (3207, DOMINANCE_REGIONS), // linalg.pooling_nwc_min
    (3238, DOMINANCE_REGIONS), // linalg.pooling_nwc_min_unsigned
    (3260, DOMINANCE_REGIONS), // linalg.pooling_nwc_sum
    (3289, DOMINANCE_REGIONS), // linalg.quantized_batch_matmul
    (3312, DOMINANCE_REGIONS), // linalg.quantized_matmul
    (3325, DOMINANCE_REGIONS), // linalg.reduce
    (3341, DOMINANCE_REGIONS), // linalg.transpose
    (3354, DOMINANCE_REGIONS), // linalg.vecmat
    (3366, TERMINATOR), // linalg.yield
    (3374, PURE_OPERATION), // llvm.add
    (3392, PURE_OPERATION), // llvm.addrspacecast
    (3400, PURE_OPERATION), // llvm.and
    (3409, PURE_OPERATION), // llvm.ashr
    (3421, PURE_OPERATION), // llvm.bitcast
    (3428, TERMINATOR), // llvm.br
    (3440, TERMINATOR), // llvm.cond_br
    (3459, PURE_OPERATION), // llvm.extractelement
    (3476, PURE_OPERATION), // llvm.extractvalue
    (3485, PURE_OPERATION), // llvm.fadd
    (3494, PURE_OPERATION), // llvm.fcmp
    (3503, PURE_OPERATION), // llvm.fdiv
    (3512, PURE_OPERATION), // llvm.fmul
    (3521, PURE_OPERATION), // llvm.fneg
    (3531, PURE_OPERATION), // llvm.fpext
    (3542, PURE_OPERATION), // llvm.fptosi
    (3553, PURE_OPERATION), // llvm.fptoui
    (3565, PURE_OPERATION), // llvm.fptrunc
    (3574, PURE_OPERATION), // llvm.frem
    (3583, PURE_OPERATION), // llvm.fsub
    (3592, DOMINANCE_SYMBOL_REGIONS), // llvm.func
    (3610, PURE_OPERATION), // llvm.getelementptr
    (3619, PURE_OPERATION), // llvm.icmp
    (3637, PURE_OPERATION), // llvm.insertelement
    (3653, PURE_OPERATION), // llvm.insertvalue
    (3666, PURE_OPERATION), // llvm.intr.abs
    (3686, PURE_OPERATION), // llvm.intr.bitreverse
    (3700, PURE_OPERATION), // llvm.intr.ceil
    (3718, PURE_OPERATION), // llvm.intr.copysign
    (3731, PURE_OPERATION), // llvm.intr.cos
    (3745, PURE_OPERATION), // llvm.intr.ctlz
    (3760, PURE_OPERATION), // llvm.intr.ctpop
    (3774, PURE_OPERATION), // llvm.intr.cttz
    (3787, PURE_OPERATION), // llvm.intr.exp
    (3801, PURE_OPERATION), // llvm.intr.exp2
    (3834, PURE_OPERATION), // llvm.intr.experimental.stepvector
    (3848, PURE_OPERATION), // llvm.intr.fabs
    (3863, PURE_OPERATION), // llvm.intr.floor
    (3876, PURE_OPERATION), // llvm.intr.fma
    (3893, PURE_OPERATION), // llvm.intr.fmuladd
    (3923, PURE_OPERATION), // llvm.intr.get.active.lane.mask
    (3943, PURE_OPERATION), // llvm.intr.is.fpclass
    (3956, PURE_OPERATION), // llvm.intr.log
    (3971, PURE_OPERATION), // llvm.intr.log10
    (3985, PURE_OPERATION), // llvm.intr.log2
    (4002, PURE_OPERATION), // llvm.intr.maximum
    (4018, PURE_OPERATION), // llvm.intr.maxnum
    (4035, PURE_OPERATION), // llvm.intr.minimum
    (4051, PURE_OPERATION), // llvm.intr.minnum
    (4064, PURE_OPERATION), // llvm.intr.pow
    (4078, PURE_OPERATION), // llvm.intr.powi
    (4093, PURE_OPERATION), // llvm.intr.round
    (4112, PURE_OPERATION), // llvm.intr.roundeven
    (4125, PURE_OPERATION), // llvm.intr.sin
    (4139, PURE_OPERATION), // llvm.intr.smax
    (4153, PURE_OPERATION), // llvm.intr.smin
    (4167, PURE_OPERATION), // llvm.intr.sqrt
    (4182, PURE_OPERATION), // llvm.intr.trunc
    (4196, PURE_OPERATION), // llvm.intr.umax
    (4210, PURE_OPERATION), // llvm.intr.umin
    (4234, PURE_OPERATION), // llvm.intr.vector.extract
    (4257, PURE_OPERATION), // llvm.intr.vector.insert
    (4284, PURE_OPERATION), // llvm.intr.vector.reduce.add
    (4311, PURE_OPERATION), // llvm.intr.vector.reduce.and
    (4339, PURE_OPERATION), // llvm.intr.vector.reduce.fadd
    (4367, PURE_OPERATION), // llvm.intr.vector.reduce.fmax
    (4395, PURE_OPERATION), // llvm.intr.vector.reduce.fmin
    (4423, PURE_OPERATION), // llvm.intr.vector.reduce.fmul
    (4450, PURE_OPERATION), // llvm.intr.vector.reduce.mul
    (4476, PURE_OPERATION), // llvm.intr.vector.reduce.or
    (4504, PURE_OPERATION), // llvm.intr.vector.reduce.smax
    (4532, PURE_OPERATION), // llvm.intr.vector.reduce.smin
    (4560, PURE_OPERATION), // llvm.intr.vector.reduce.umax
    (4588, PURE_OPERATION), // llvm.intr.vector.reduce.umin
    (4615, PURE_OPERATION), // llvm.intr.vector.reduce.xor
    (4631, PURE_OPERATION), // llvm.intr.vp.add
    (4647, PURE_OPERATION), // llvm.intr.vp.and
    (4664, PURE_OPERATION), // llvm.intr.vp.ashr
    (4681, PURE_OPERATION), // llvm.intr.vp.fadd
    (4698, PURE_OPERATION), // llvm.intr.vp.fdiv
    (4714, PURE_OPERATION), // llvm.intr.vp.fma
    (4731, PURE_OPERATION), // llvm.intr.vp.fmul
    (4748, PURE_OPERATION), // llvm.intr.vp.fneg
    (4766, PURE_OPERATION), // llvm.intr.vp.fpext
    (4785, PURE_OPERATION), // llvm.intr.vp.fptosi
    (4804, PURE_OPERATION), // llvm.intr.vp.fptoui
    (4824, PURE_OPERATION), // llvm.intr.vp.fptrunc
    (4841, PURE_OPERATION), // llvm.intr.vp.frem
    (4858, PURE_OPERATION), // llvm.intr.vp.fsub
    (4879, PURE_OPERATION), // llvm.intr.vp.inttoptr
    (4896, PURE_OPERATION), // llvm.intr.vp.lshr
    (4914, PURE_OPERATION), // llvm.intr.vp.merge
    (4930, PURE_OPERATION), // llvm.intr.vp.mul
    (4945, PURE_OPERATION), // llvm.intr.vp.or
    (4966, PURE_OPERATION), // llvm.intr.vp.ptrtoint
    (4989, PURE_OPERATION), // llvm.intr.vp.reduce.add
    (5012, PURE_OPERATION), // llvm.intr.vp.reduce.and
    (5036, PURE_OPERATION), // llvm.intr.vp.reduce.fadd
    (5060, PURE_OPERATION), // llvm.intr.vp.reduce.fmax
    (5084, PURE_OPERATION), // llvm.intr.vp.reduce.fmin
    (5108, PURE_OPERATION), // llvm.intr.vp.reduce.fmul
    (5131, PURE_OPERATION), // llvm.intr.vp.reduce.mul
    (5153, PURE_OPERATION), // llvm.intr.vp.reduce.or
    (5177, PURE_OPERATION), // llvm.intr.vp.reduce.smax
    (5201, PURE_OPERATION), // llvm.intr.vp.reduce.smin
    (5225, PURE_OPERATION), // llvm.intr.vp.reduce.umax
    (5249, PURE_OPERATION), // llvm.intr.vp.reduce.umin
    (5272, PURE_OPERATION), // llvm.intr.vp.reduce.xor
    (5289, PURE_OPERATION), // llvm.intr.vp.sdiv
    (5308, PURE_OPERATION), // llvm.intr.vp.select
    (5325, PURE_OPERATION), // llvm.intr.vp.sext
    (5341, PURE_OPERATION), // llvm.intr.vp.shl
    (5360, PURE_OPERATION), // llvm.intr.vp.sitofp
    (5377, PURE_OPERATION), // llvm.intr.vp.srem
    (5393, PURE_OPERATION), // llvm.intr.vp.sub
    (5411, PURE_OPERATION), // llvm.intr.vp.trunc
    (5428, PURE_OPERATION), // llvm.intr.vp.udiv
    (5447, PURE_OPERATION), // llvm.intr.vp.uitofp
    (5464, PURE_OPERATION), // llvm.intr.vp.urem
    (5480, PURE_OPERATION), // llvm.intr.vp.xor
    (5497, PURE_OPERATION), // llvm.intr.vp.zext
    (5510, PURE_OPERATION), // llvm.inttoptr
    (5521, TERMINATOR), // llvm.invoke
    (5530, PURE_OPERATION), // llvm.lshr
    (5543, NO_TERMINATOR_DOMINANCE_SYMBOL_REGIONS), // llvm.metadata
    (5562, PURE_OPERATION), // llvm.mlir.addressof
    (5580, PURE_OPERATION), // llvm.mlir.constant
    (5596, DOMINANCE_SYMBOL_REGIONS), // llvm.mlir.global
    (5610, PURE_OPERATION), // llvm.mlir.null
    (5625, PURE_OPERATION), // llvm.mlir.undef
    (5633, PURE_OPERATION), // llvm.mul
    (5640, PURE_OPERATION), // llvm.or
    (5653, PURE_OPERATION), // llvm.ptrtoint
    (5664, TERMINATOR), // llvm.resume
    (5675, TERMINATOR), // llvm.return
    (5684, PURE_OPERATION), // llvm.sdiv
    (5695, PURE_OPERATION), // llvm.select
    (5704, PURE_OPERATION), // llvm.sext
    (5712, PURE_OPERATION), // llvm.shl
    (5730, PURE_OPERATION), // llvm.shufflevector
    (5741, PURE_OPERATION), // llvm.sitofp
    (5750, PURE_OPERATION), // llvm.srem
    (5758, PURE_OPERATION), // llvm.sub
    (5769, TERMINATOR), // llvm.switch
    (5779, PURE_OPERATION), // llvm.trunc
    (5788, PURE_OPERATION), // llvm.udiv
    (5799, PURE_OPERATION), // llvm.uitofp
    (5815, TERMINATOR), // llvm.unreachable
    (5824, PURE_OPERATION), // llvm.urem
    (5832, PURE_OPERATION), // llvm.xor
    (5841, PURE_OPERATION), // llvm.zext
    (5850, PURE_OPERATION), // math.absf
    (5859, PURE_OPERATION), // math.absi
    (5868, PURE_OPERATION), // math.atan
    (5878, PURE_OPERATION), // math.atan2
    (5887, PURE_OPERATION), // math.cbrt
    (5896, PURE_OPERATION), // math.ceil
    (5909, PURE_OPERATION), // math.copysign
    (5917, PURE_OPERATION), // math.cos
    (5926, PURE_OPERATION), // math.ctlz
    (5936, PURE_OPERATION), // math.ctpop
    (5945, PURE_OPERATION), // math.cttz
    (5953, PURE_OPERATION), // math.erf
    (5961, PURE_OPERATION), // math.exp
    (5970, PURE_OPERATION), // math.exp2
    (5980, PURE_OPERATION), // math.expm1
    (5990, PURE_OPERATION), // math.floor
    (5998, PURE_OPERATION), // math.fma
    (6008, PURE_OPERATION), // math.fpowi
    (6018, PURE_OPERATION), // math.ipowi
    (6026, PURE_OPERATION), // math.log
    (6036, PURE_OPERATION), // math.log10
    (6046, PURE_OPERATION), // math.log1p
    (6055, PURE_OPERATION), // math.log2
    (6064, PURE_OPERATION), // math.powf
    (6074, PURE_OPERATION), // math.round
    (6088, PURE_OPERATION), // math.roundeven
    (6098, PURE_OPERATION), // math.rsqrt
    (6106, PURE_OPERATION), // math.sin
    (6115, PURE_OPERATION), // math.sqrt
    (6123, PURE_OPERATION), // math.tan
    (6132, PURE_OPERATION), // math.tanh
    (6142, PURE_OPERATION), // math.trunc
    (6161, DOMINANCE_REGIONS), // memref.alloca_scope
    (6187, TERMINATOR), // memref.alloca_scope.return
    (6206, TERMINATOR), // memref.atomic_yield
    (6217, PURE_OPERATION), // memref.cast
    (6238, PURE_OPERATION), // memref.collapse_shape
    (6257, PURE_OPERATION), // memref.expand_shape
    (6296, PURE_OPERATION), // memref.extract_aligned_pointer_as_index
    (6327, PURE_OPERATION), // memref.extract_strided_metadata
    (6352, DOMINANCE_REGIONS), // memref.generic_atomic_rmw
    (6369, PURE_OPERATION), // memref.get_global
    (6380, PURE_OPERATION), // memref.rank
    (6403, PURE_OPERATION), // memref.reinterpret_cast
    (6417, PURE_OPERATION), // memref.reshape
    (6431, PURE_OPERATION), // memref.subview
    (6447, PURE_OPERATION), // memref.transpose
    (6458, PURE_OPERATION), // memref.view
    (6486, PURE_OPERATION), // ml_program.global_load_const
    (6503, TERMINATOR), // ml_program.output
    (6520, TERMINATOR), // ml_program.return
    (6536, PURE_OPERATION), // ml_program.token
    (6553, PURE_OPERATION), // nvgpu.mma.sp.sync
    (6567, PURE_OPERATION), // nvgpu.mma.sync
    (6588, PURE_OPERATION), // nvvm.rcp.approx.ftz.f
    (6614, PURE_OPERATION), // nvvm.read.ptx.sreg.ctaid.x
    (6640, PURE_OPERATION), // nvvm.read.ptx.sreg.ctaid.y
    (6666, PURE_OPERATION), // nvvm.read.ptx.sreg.ctaid.z
    (6691, PURE_OPERATION), // nvvm.read.ptx.sreg.laneid
    (6718, PURE_OPERATION), // nvvm.read.ptx.sreg.nctaid.x
    (6745, PURE_OPERATION), // nvvm.read.ptx.sreg.nctaid.y
    (6772, PURE_OPERATION), // nvvm.read.ptx.sreg.nctaid.z
    (6797, PURE_OPERATION), // nvvm.read.ptx.sreg.ntid.x
    (6822, PURE_OPERATION), // nvvm.read.ptx.sreg.ntid.y
    (6847, PURE_OPERATION), // nvvm.read.ptx.sreg.ntid.z
    (6871, PURE_OPERATION), // nvvm.read.ptx.sreg.tid.x
    (6895, PURE_OPERATION), // nvvm.read.ptx.sreg.tid.y
    (6919, PURE_OPERATION), // nvvm.read.ptx.sreg.tid.z
    (6946, PURE_OPERATION), // nvvm.read.ptx.sreg.warpsize
    (6964, DOMINANCE_REGIONS), // omp.atomic.capture
    (6981, DOMINANCE_REGIONS), // omp.atomic.update
    (6993, DOMINANCE_REGIONS), // omp.critical
    (7003, DOMINANCE_REGIONS), // omp.master
    (7021, DOMINANCE_REGIONS), // omp.ordered_region
    (7033, DOMINANCE_REGIONS), // omp.parallel
    (7054, DOMINANCE_SYMBOL_REGIONS), // omp.reduction.declare
    (7065, DOMINANCE_REGIONS), // omp.section
    (7077, DOMINANCE_REGIONS), // omp.sections
    (7089, DOMINANCE_REGIONS), // omp.simdloop
    (7099, DOMINANCE_REGIONS), // omp.single
    (7109, DOMINANCE_REGIONS), // omp.target
    (7124, DOMINANCE_REGIONS), // omp.target_data
    (7132, DOMINANCE_REGIONS), // omp.task
    (7145, DOMINANCE_REGIONS), // omp.taskgroup
    (7157, DOMINANCE_REGIONS), // omp.taskloop
    (7171, TERMINATOR), // omp.terminator
    (7181, DOMINANCE_REGIONS), // omp.wsloop
    (7190, TERMINATOR), // omp.yield
    (7201, DOMINANCE_SYMBOL_REGIONS), // pdl.pattern
    (7210, PURE_OPERATION), // pdl.range
    (7220, PURE_OPERATION), // pdl.result
    (7231, PURE_OPERATION), // pdl.results
    (7242, TERMINATOR_NO_TERMINATOR_DOMINANCE_REGIONS), // pdl.rewrite
    (7269, TERMINATOR), // pdl_interp.apply_constraint
    (7289, TERMINATOR), // pdl_interp.are_equal
    (7306, TERMINATOR), // pdl_interp.branch
    (7332, TERMINATOR), // pdl_interp.check_attribute
    (7362, TERMINATOR), // pdl_interp.check_operand_count
    (7393, TERMINATOR), // pdl_interp.check_operation_name
    (7422, TERMINATOR), // pdl_interp.check_result_count
    (7443, TERMINATOR), // pdl_interp.check_type
    (7465, TERMINATOR), // pdl_interp.check_types
    (7484, TERMINATOR), // pdl_interp.continue
    (7511, PURE_OPERATION), // pdl_interp.create_attribute
    (7534, PURE_OPERATION), // pdl_interp.create_range
    (7556, PURE_OPERATION), // pdl_interp.create_type
    (7579, PURE_OPERATION), // pdl_interp.create_types
    (7597, PURE_OPERATION), // pdl_interp.extract
    (7616, TERMINATOR), // pdl_interp.finalize
    (7634, TERMINATOR_DOMINANCE_REGIONS), // pdl_interp.foreach
    (7649, DOMINANCE_SYMBOL_REGIONS), // pdl_interp.func
    (7673, PURE_OPERATION), // pdl_interp.get_attribute
    (7702, PURE_OPERATION), // pdl_interp.get_attribute_type
    (7728, PURE_OPERATION), // pdl_interp.get_defining_op
    (7750, PURE_OPERATION), // pdl_interp.get_operand
    (7773, PURE_OPERATION), // pdl_interp.get_operands
    (7794, PURE_OPERATION), // pdl_interp.get_result
    (7816, PURE_OPERATION), // pdl_interp.get_results
    (7836, PURE_OPERATION), // pdl_interp.get_users
    (7861, PURE_OPERATION), // pdl_interp.get_value_type
    (7883, TERMINATOR), // pdl_interp.is_not_null
    (7906, TERMINATOR), // pdl_interp.record_match
    (7933, TERMINATOR), // pdl_interp.switch_attribute
    (7964, TERMINATOR), // pdl_interp.switch_operand_count
    (7996, TERMINATOR), // pdl_interp.switch_operation_name
    (8026, TERMINATOR), // pdl_interp.switch_result_count
    (8048, TERMINATOR), // pdl_interp.switch_type
    (8071, TERMINATOR), // pdl_interp.switch_types
    (8082, PURE_OPERATION), // quant.dcast
    (8093, PURE_OPERATION), // quant.qcast
    (8104, PURE_OPERATION), // quant.scast
    (8120, PURE_OPERATION), // rocdl.grid.dim.x
    (8136, PURE_OPERATION), // rocdl.grid.dim.y
    (8152, PURE_OPERATION), // rocdl.grid.dim.z
    (8173, PURE_OPERATION), // rocdl.workgroup.dim.x
    (8194, PURE_OPERATION), // rocdl.workgroup.dim.y
    (8215, PURE_OPERATION), // rocdl.workgroup.dim.z
    (8235, PURE_OPERATION), // rocdl.workgroup.id.x
    (8255, PURE_OPERATION), // rocdl.workgroup.id.y
    (8275, PURE_OPERATION), // rocdl.workgroup.id.z
    (8294, PURE_OPERATION), // rocdl.workitem.id.x
    (8313, PURE_OPERATION), // rocdl.workitem.id.y
    (8332, PURE_OPERATION), // rocdl.workitem.id.z
    (8345, TERMINATOR), // scf.condition
    (8363, DOMINANCE_REGIONS), // scf.execute_region
    (8370, DOMINANCE_REGIONS), // scf.for
    (8388, DOMINANCE_REGIONS), // scf.foreach_thread
    (8427, TERMINATOR_NO_TERMINATOR_REGIONS), // scf.foreach_thread.perform_concurrently
    (8433, DOMINANCE_REGIONS), // scf.if
    (8449, DOMINANCE_REGIONS), // scf.index_switch
    (8461, DOMINANCE_REGIONS), // scf.parallel
    (8471, DOMINANCE_REGIONS), // scf.reduce
    (8488, TERMINATOR), // scf.reduce.return
    (8497, DOMINANCE_REGIONS), // scf.while
    (8506, TERMINATOR), // scf.yield
    (8515, PURE_OPERATION), // shape.add
    (8524, PURE_OPERATION), // shape.any
    (8538, DOMINANCE_REGIONS), // shape.assuming
    (8556, PURE_OPERATION), // shape.assuming_all
    (8576, TERMINATOR), // shape.assuming_yield
    (8591, PURE_OPERATION), // shape.broadcast
    (8603, PURE_OPERATION), // shape.concat
    (8620, PURE_OPERATION), // shape.const_shape
    (8636, PURE_OPERATION), // shape.const_size
    (8655, PURE_OPERATION), // shape.const_witness
    (8664, PURE_OPERATION), // shape.dim
    (8673, PURE_OPERATION), // shape.div
    (8697, PURE_OPERATION), // shape.from_extent_tensor
    (8715, PURE_OPERATION), // shape.from_extents
    (8725, DOMINANCE_SYMBOL_REGIONS), // shape.func
    (8747, NO_TERMINATOR_DOMINANCE_SYMBOL_REGIONS), // shape.function_library
    (8763, PURE_OPERATION), // shape.get_extent
    (8782, PURE_OPERATION), // shape.index_to_size
    (8791, PURE_OPERATION), // shape.max
    (8800, PURE_OPERATION), // shape.min
    (8809, PURE_OPERATION), // shape.mul
    (8827, PURE_OPERATION), // shape.num_elements
    (8837, PURE_OPERATION), // shape.rank
    (8849, DOMINANCE_REGIONS), // shape.reduce
    (8861, TERMINATOR), // shape.return
    (8875, PURE_OPERATION), // shape.shape_eq
    (8889, PURE_OPERATION), // shape.shape_of
    (8908, PURE_OPERATION), // shape.size_to_index
    (8922, PURE_OPERATION), // shape.split_at
    (8944, PURE_OPERATION), // shape.to_extent_tensor
    (8964, PURE_OPERATION), // shape.value_as_shape
    (8978, PURE_OPERATION), // shape.value_of
    (8994, PURE_OPERATION), // shape.with_shape
    (9005, TERMINATOR), // shape.yield
    (9025, DOMINANCE_REGIONS), // sparse_tensor.binary
    (9050, PURE_OPERATION), // sparse_tensor.concatenate
    (9071, PURE_OPERATION), // sparse_tensor.convert
    (9092, DOMINANCE_REGIONS), // sparse_tensor.foreach
    (9113, PURE_OPERATION), // sparse_tensor.indices
    (9141, PURE_OPERATION), // sparse_tensor.indices_buffer
    (9158, PURE_OPERATION), // sparse_tensor.new
    (9189, PURE_OPERATION), // sparse_tensor.number_of_entries
    (9211, PURE_OPERATION), // sparse_tensor.pointers
    (9231, DOMINANCE_REGIONS), // sparse_tensor.reduce
    (9251, DOMINANCE_REGIONS), // sparse_tensor.select
    (9286, PURE_OPERATION), // sparse_tensor.storage_specifier.get
    (9322, PURE_OPERATION), // sparse_tensor.storage_specifier.init
    (9357, PURE_OPERATION), // sparse_tensor.storage_specifier.set
    (9376, DOMINANCE_REGIONS), // sparse_tensor.unary
    (9396, PURE_OPERATION), // sparse_tensor.values
    (9415, TERMINATOR), // sparse_tensor.yield
    (9432, PURE_OPERATION), // spirv.AccessChain
    (9446, PURE_OPERATION), // spirv.BitCount
    (9466, PURE_OPERATION), // spirv.BitFieldInsert
    (9488, PURE_OPERATION), // spirv.BitFieldSExtract
    (9510, PURE_OPERATION), // spirv.BitFieldUExtract
    (9526, PURE_OPERATION), // spirv.BitReverse
    (9539, PURE_OPERATION), // spirv.Bitcast
    (9555, PURE_OPERATION), // spirv.BitwiseAnd
    (9570, PURE_OPERATION), // spirv.BitwiseOr
    (9586, PURE_OPERATION), // spirv.BitwiseXor
    (9598, TERMINATOR), // spirv.Branch
    (9621, TERMINATOR), // spirv.BranchConditional
    (9634, PURE_OPERATION), // spirv.CL.ceil
    (9646, PURE_OPERATION), // spirv.CL.cos
    (9658, PURE_OPERATION), // spirv.CL.erf
    (9670, PURE_OPERATION), // spirv.CL.exp
    (9683, PURE_OPERATION), // spirv.CL.fabs
    (9697, PURE_OPERATION), // spirv.CL.floor
    (9709, PURE_OPERATION), // spirv.CL.fma
    (9722, PURE_OPERATION), // spirv.CL.fmax
    (9735, PURE_OPERATION), // spirv.CL.fmin
    (9747, PURE_OPERATION), // spirv.CL.log
    (9759, PURE_OPERATION), // spirv.CL.pow
    (9772, PURE_OPERATION), // spirv.CL.rint
    (9786, PURE_OPERATION), // spirv.CL.round
    (9800, PURE_OPERATION), // spirv.CL.rsqrt
    (9814, PURE_OPERATION), // spirv.CL.s_abs
    (9828, PURE_OPERATION), // spirv.CL.s_max
    (9842, PURE_OPERATION), // spirv.CL.s_min
    (9854, PURE_OPERATION), // spirv.CL.sin
    (9867, PURE_OPERATION), // spirv.CL.sqrt
    (9880, PURE_OPERATION), // spirv.CL.tanh
    (9894, PURE_OPERATION), // spirv.CL.u_max
    (9908, PURE_OPERATION), // spirv.CL.u_min
    (9932, PURE_OPERATION), // spirv.CompositeConstruct
    (9954, PURE_OPERATION), // spirv.CompositeExtract
    (9975, PURE_OPERATION), // spirv.CompositeInsert
    (9989, PURE_OPERATION), // spirv.Constant
    (10006, PURE_OPERATION), // spirv.ConvertFToS
    (10023, PURE_OPERATION), // spirv.ConvertFToU
    (10040, PURE_OPERATION), // spirv.ConvertSToF
    (10057, PURE_OPERATION), // spirv.ConvertUToF
    (10067, PURE_OPERATION), // spirv.FAdd
    (10081, PURE_OPERATION), // spirv.FConvert
    (10091, PURE_OPERATION), // spirv.FDiv
    (10101, PURE_OPERATION), // spirv.FMod
    (10111, PURE_OPERATION), // spirv.FMul
    (10124, PURE_OPERATION), // spirv.FNegate
    (10139, PURE_OPERATION), // spirv.FOrdEqual
    (10160, PURE_OPERATION), // spirv.FOrdGreaterThan
    (10186, PURE_OPERATION), // spirv.FOrdGreaterThanEqual
    (10204, PURE_OPERATION), // spirv.FOrdLessThan
    (10227, PURE_OPERATION), // spirv.FOrdLessThanEqual
    (10245, PURE_OPERATION), // spirv.FOrdNotEqual
    (10255, PURE_OPERATION), // spirv.FRem
    (10265, PURE_OPERATION), // spirv.FSub
    (10282, PURE_OPERATION), // spirv.FUnordEqual
    (10305, PURE_OPERATION), // spirv.FUnordGreaterThan
    (10333, PURE_OPERATION), // spirv.FUnordGreaterThanEqual
    (10353, PURE_OPERATION), // spirv.FUnordLessThan
    (10378, PURE_OPERATION), // spirv.FUnordLessThanEqual
    (10398, PURE_OPERATION), // spirv.FUnordNotEqual
    (10411, PURE_OPERATION), // spirv.GL.Acos
    (10424, PURE_OPERATION), // spirv.GL.Asin
    (10437, PURE_OPERATION), // spirv.GL.Atan
    (10450, PURE_OPERATION), // spirv.GL.Ceil
    (10462, PURE_OPERATION), // spirv.GL.Cos
    (10475, PURE_OPERATION), // spirv.GL.Cosh
    (10487, PURE_OPERATION), // spirv.GL.Exp
    (10500, PURE_OPERATION), // spirv.GL.FAbs
    (10515, PURE_OPERATION), // spirv.GL.FClamp
    (10528, PURE_OPERATION), // spirv.GL.FMax
    (10541, PURE_OPERATION), // spirv.GL.FMin
    (10554, PURE_OPERATION), // spirv.GL.FMix
    (10568, PURE_OPERATION), // spirv.GL.FSign
    (10585, PURE_OPERATION), // spirv.GL.FindUMsb
    (10599, PURE_OPERATION), // spirv.GL.Floor
    (10611, PURE_OPERATION), // spirv.GL.Fma
    (10631, PURE_OPERATION), // spirv.GL.FrexpStruct
    (10651, PURE_OPERATION), // spirv.GL.InverseSqrt
    (10665, PURE_OPERATION), // spirv.GL.Ldexp
    (10677, PURE_OPERATION), // spirv.GL.Log
    (10689, PURE_OPERATION), // spirv.GL.Pow
    (10703, PURE_OPERATION), // spirv.GL.Round
    (10721, PURE_OPERATION), // spirv.GL.RoundEven
    (10734, PURE_OPERATION), // spirv.GL.SAbs
    (10749, PURE_OPERATION), // spirv.GL.SClamp
    (10762, PURE_OPERATION), // spirv.GL.SMax
    (10775, PURE_OPERATION), // spirv.GL.SMin
    (10789, PURE_OPERATION), // spirv.GL.SSign
    (10801, PURE_OPERATION), // spirv.GL.Sin
    (10814, PURE_OPERATION), // spirv.GL.Sinh
    (10827, PURE_OPERATION), // spirv.GL.Sqrt
    (10839, PURE_OPERATION), // spirv.GL.Tan
    (10852, PURE_OPERATION), // spirv.GL.Tanh
    (10867, PURE_OPERATION), // spirv.GL.UClamp
    (10880, PURE_OPERATION), // spirv.GL.UMax
    (10893, PURE_OPERATION), // spirv.GL.UMin
    (10915, PURE_OPERATION), // spirv.GenericCastToPtr
    (10945, PURE_OPERATION), // spirv.GenericCastToPtrExplicit
    (10965, PURE_OPERATION), // spirv.GroupBroadcast
    (10980, PURE_OPERATION), // spirv.GroupFAdd
    (10995, PURE_OPERATION), // spirv.GroupFMax
    (11010, PURE_OPERATION), // spirv.GroupFMin
    (11025, PURE_OPERATION), // spirv.GroupIAdd
    (11055, PURE_OPERATION), // spirv.GroupNonUniformBroadcast
    (11083, PURE_OPERATION), // spirv.GroupNonUniformShuffle
    (11115, PURE_OPERATION), // spirv.GroupNonUniformShuffleDown
    (11145, PURE_OPERATION), // spirv.GroupNonUniformShuffleUp
    (11176, PURE_OPERATION), // spirv.GroupNonUniformShuffleXor
    (11191, PURE_OPERATION), // spirv.GroupSMax
    (11206, PURE_OPERATION), // spirv.GroupSMin
    (11221, PURE_OPERATION), // spirv.GroupUMax
    (11236, PURE_OPERATION), // spirv.GroupUMin
    (11246, PURE_OPERATION), // spirv.IAdd
    (11261, PURE_OPERATION), // spirv.IAddCarry
    (11273, PURE_OPERATION), // spirv.IEqual
    (11283, PURE_OPERATION), // spirv.IMul
    (11309, PURE_OPERATION), // spirv.INTEL.JointMatrixMad
    (11346, PURE_OPERATION), // spirv.INTEL.JointMatrixWorkItemLength
    (11361, PURE_OPERATION), // spirv.INotEqual
    (11371, PURE_OPERATION), // spirv.ISub
    (11387, PURE_OPERATION), // spirv.ISubBorrow
    (11398, PURE_OPERATION), // spirv.Image
    (11419, PURE_OPERATION), // spirv.ImageDrefGather
    (11439, PURE_OPERATION), // spirv.ImageQuerySize
    (11467, PURE_OPERATION), // spirv.InBoundsPtrAccessChain
    (11478, PURE_OPERATION), // spirv.IsInf
    (11489, PURE_OPERATION), // spirv.IsNan
    (11508, PURE_OPERATION), // spirv.KHR.GroupFMul
    (11527, PURE_OPERATION), // spirv.KHR.GroupIMul
    (11543, PURE_OPERATION), // spirv.LogicalAnd
    (11561, PURE_OPERATION), // spirv.LogicalEqual
    (11577, PURE_OPERATION), // spirv.LogicalNot
    (11598, PURE_OPERATION), // spirv.LogicalNotEqual
    (11613, PURE_OPERATION), // spirv.LogicalOr
    (11636, PURE_OPERATION), // spirv.MatrixTimesMatrix
    (11659, PURE_OPERATION), // spirv.MatrixTimesScalar
    (11691, PURE_OPERATION), // spirv.NV.CooperativeMatrixLength
    (11723, PURE_OPERATION), // spirv.NV.CooperativeMatrixMulAdd
    (11732, PURE_OPERATION), // spirv.Not
    (11745, PURE_OPERATION), // spirv.Ordered
    (11765, PURE_OPERATION), // spirv.PtrAccessChain
    (11787, PURE_OPERATION), // spirv.PtrCastToGeneric
    (11799, TERMINATOR), // spirv.Return
    (11816, TERMINATOR), // spirv.ReturnValue
    (11830, PURE_OPERATION), // spirv.SConvert
    (11840, PURE_OPERATION), // spirv.SDiv
    (11850, PURE_OPERATION), // spirv.SDot
    (11866, PURE_OPERATION), // spirv.SDotAccSat
    (11884, PURE_OPERATION), // spirv.SGreaterThan
    (11907, PURE_OPERATION), // spirv.SGreaterThanEqual
    (11922, PURE_OPERATION), // spirv.SLessThan
    (11942, PURE_OPERATION), // spirv.SLessThanEqual
    (11952, PURE_OPERATION), // spirv.SMod
    (11970, PURE_OPERATION), // spirv.SMulExtended
    (11983, PURE_OPERATION), // spirv.SNegate
    (11993, PURE_OPERATION), // spirv.SRem
    (12004, PURE_OPERATION), // spirv.SUDot
    (12021, PURE_OPERATION), // spirv.SUDotAccSat
    (12033, PURE_OPERATION), // spirv.Select
    (12055, PURE_OPERATION), // spirv.ShiftLeftLogical
    (12081, PURE_OPERATION), // spirv.ShiftRightArithmetic
    (12104, PURE_OPERATION), // spirv.ShiftRightLogical
    (12131, DOMINANCE_REGIONS), // spirv.SpecConstantOperation
    (12146, PURE_OPERATION), // spirv.Transpose
    (12160, PURE_OPERATION), // spirv.UConvert
    (12170, PURE_OPERATION), // spirv.UDiv
    (12180, PURE_OPERATION), // spirv.UDot
    (12196, PURE_OPERATION), // spirv.UDotAccSat
    (12214, PURE_OPERATION), // spirv.UGreaterThan
    (12237, PURE_OPERATION), // spirv.UGreaterThanEqual
    (12252, PURE_OPERATION), // spirv.ULessThan
    (12272, PURE_OPERATION), // spirv.ULessThanEqual
    (12282, PURE_OPERATION), // spirv.UMod
    (12300, PURE_OPERATION), // spirv.UMulExtended
    (12311, PURE_OPERATION), // spirv.Undef
    (12326, PURE_OPERATION), // spirv.Unordered
    (12343, TERMINATOR), // spirv.Unreachable
    (12369, PURE_OPERATION), // spirv.VectorExtractDynamic
    (12394, PURE_OPERATION), // spirv.VectorInsertDynamic
    (12413, PURE_OPERATION), // spirv.VectorShuffle
    (12436, PURE_OPERATION), // spirv.VectorTimesScalar
    (12446, DOMINANCE_SYMBOL_REGIONS), // spirv.func
    (12466, PURE_OPERATION), // spirv.mlir.addressof
    (12481, DOMINANCE_REGIONS), // spirv.mlir.loop
    (12497, TERMINATOR), // spirv.mlir.merge
    (12519, PURE_OPERATION), // spirv.mlir.referenceof
    (12539, DOMINANCE_REGIONS), // spirv.mlir.selection
    (12555, TERMINATOR), // spirv.mlir.yield
    (12567, NO_TERMINATOR_DOMINANCE_SYMBOL_REGIONS), // spirv.module
    (12578, PURE_OPERATION), // tensor.cast
    (12599, PURE_OPERATION), // tensor.collapse_shape
    (12611, PURE_OPERATION), // tensor.empty
    (12630, PURE_OPERATION), // tensor.expand_shape
    (12644, PURE_OPERATION), // tensor.extract
    (12664, PURE_OPERATION), // tensor.extract_slice
    (12684, PURE_OPERATION), // tensor.from_elements
    (12697, PURE_OPERATION), // tensor.gather
    (12712, DOMINANCE_REGIONS), // tensor.generate
    (12725, PURE_OPERATION), // tensor.insert
    (12744, PURE_OPERATION), // tensor.insert_slice
    (12754, DOMINANCE_REGIONS), // tensor.pad
    (12765, PURE_OPERATION), // tensor.rank
    (12779, PURE_OPERATION), // tensor.reshape
    (12793, PURE_OPERATION), // tensor.scatter
    (12805, PURE_OPERATION), // tensor.splat
    (12817, TERMINATOR), // tensor.yield
    (12825, PURE_OPERATION), // tosa.abs
    (12833, PURE_OPERATION), // tosa.add
    (12849, PURE_OPERATION), // tosa.apply_scale
    (12860, PURE_OPERATION), // tosa.argmax
    (12887, PURE_OPERATION), // tosa.arithmetic_right_shift
    (12902, PURE_OPERATION), // tosa.avg_pool2d
    (12918, PURE_OPERATION), // tosa.bitwise_and
    (12934, PURE_OPERATION), // tosa.bitwise_not
    (12949, PURE_OPERATION), // tosa.bitwise_or
    (12965, PURE_OPERATION), // tosa.bitwise_xor
    (12974, PURE_OPERATION), // tosa.cast
    (12983, PURE_OPERATION), // tosa.ceil
    (12993, PURE_OPERATION), // tosa.clamp
    (13001, PURE_OPERATION), // tosa.clz
    (13012, PURE_OPERATION), // tosa.concat
    (13024, DOMINANCE_REGIONS), // tosa.cond_if
    (13034, PURE_OPERATION), // tosa.const
    (13045, PURE_OPERATION), // tosa.conv2d
    (13056, PURE_OPERATION), // tosa.conv3d
    (13077, PURE_OPERATION), // tosa.depthwise_conv2d
    (13085, PURE_OPERATION), // tosa.div
    (13095, PURE_OPERATION), // tosa.equal
    (13103, PURE_OPERATION), // tosa.exp
    (13113, PURE_OPERATION), // tosa.floor
    (13133, PURE_OPERATION), // tosa.fully_connected
    (13144, PURE_OPERATION), // tosa.gather
    (13156, PURE_OPERATION), // tosa.greater
    (13174, PURE_OPERATION), // tosa.greater_equal
    (13187, PURE_OPERATION), // tosa.identity
    (13195, PURE_OPERATION), // tosa.log
    (13211, PURE_OPERATION), // tosa.logical_and
    (13234, PURE_OPERATION), // tosa.logical_left_shift
    (13250, PURE_OPERATION), // tosa.logical_not
    (13265, PURE_OPERATION), // tosa.logical_or
    (13289, PURE_OPERATION), // tosa.logical_right_shift
    (13305, PURE_OPERATION), // tosa.logical_xor
    (13316, PURE_OPERATION), // tosa.matmul
    (13331, PURE_OPERATION), // tosa.max_pool2d
    (13343, PURE_OPERATION), // tosa.maximum
    (13355, PURE_OPERATION), // tosa.minimum
    (13363, PURE_OPERATION), // tosa.mul
    (13374, PURE_OPERATION), // tosa.negate
    (13382, PURE_OPERATION), // tosa.pad
    (13390, PURE_OPERATION), // tosa.pow
    (13405, PURE_OPERATION), // tosa.reciprocal
    (13420, PURE_OPERATION), // tosa.reduce_all
    (13435, PURE_OPERATION), // tosa.reduce_any
    (13450, PURE_OPERATION), // tosa.reduce_max
    (13465, PURE_OPERATION), // tosa.reduce_min
    (13481, PURE_OPERATION), // tosa.reduce_prod
    (13496, PURE_OPERATION), // tosa.reduce_sum
    (13508, PURE_OPERATION), // tosa.rescale
    (13520, PURE_OPERATION), // tosa.reshape
    (13531, PURE_OPERATION), // tosa.resize
    (13543, PURE_OPERATION), // tosa.reverse
    (13554, PURE_OPERATION), // tosa.rfft2d
    (13564, PURE_OPERATION), // tosa.rsqrt
    (13576, PURE_OPERATION), // tosa.scatter
    (13587, PURE_OPERATION), // tosa.select
    (13599, PURE_OPERATION), // tosa.sigmoid
    (13609, PURE_OPERATION), // tosa.slice
    (13617, PURE_OPERATION), // tosa.sub
    (13627, PURE_OPERATION), // tosa.table
    (13636, PURE_OPERATION), // tosa.tanh
    (13645, PURE_OPERATION), // tosa.tile
    (13659, PURE_OPERATION), // tosa.transpose
    (13680, PURE_OPERATION), // tosa.transpose_conv2d
    (13695, DOMINANCE_REGIONS), // tosa.while_loop
    (13705, TERMINATOR), // tosa.yield
    (13727, DOMINANCE_REGIONS), // transform.alternatives
    (13744, DOMINANCE_REGIONS), // transform.foreach
    (13762, DOMINANCE_REGIONS), // transform.sequence
    (13790, NO_TERMINATOR_REGIONS), // transform.structured.replace
    (13817, NO_TERMINATOR_DOMINANCE_REGIONS), // transform.with_pdl_patterns
    (13832, TERMINATOR), // transform.yield
    (13846, PURE_OPERATION), // vector.bitcast
    (13862, PURE_OPERATION), // vector.broadcast
    (13882, PURE_OPERATION), // vector.constant_mask
    (13897, PURE_OPERATION), // vector.contract
    (13915, PURE_OPERATION), // vector.create_mask
    (13929, PURE_OPERATION), // vector.extract
    (13957, PURE_OPERATION), // vector.extract_strided_slice
    (13978, PURE_OPERATION), // vector.extractelement
    (13999, PURE_OPERATION), // vector.flat_transpose
    (14009, PURE_OPERATION), // vector.fma
    (14022, PURE_OPERATION), // vector.insert
    (14049, PURE_OPERATION), // vector.insert_strided_slice
    (14069, PURE_OPERATION), // vector.insertelement
    (14080, DOMINANCE_REGIONS), // vector.mask
    (14102, PURE_OPERATION), // vector.matrix_multiply
    (14124, PURE_OPERATION), // vector.multi_reduction
    (14143, PURE_OPERATION), // vector.outerproduct
    (14159, PURE_OPERATION), // vector.reduction
    (14173, PURE_OPERATION), // vector.reshape
    (14196, PURE_OPERATION), // vector.scalable.extract
    (14218, PURE_OPERATION), // vector.scalable.insert
    (14229, PURE_OPERATION), // vector.scan
    (14246, PURE_OPERATION), // vector.shape_cast
    (14260, PURE_OPERATION), // vector.shuffle
    (14272, PURE_OPERATION), // vector.splat
    (14288, PURE_OPERATION), // vector.transpose
    (14304, PURE_OPERATION), // vector.type_cast
    (14317, PURE_OPERATION), // vector.vscale
    (14346, DOMINANCE_REGIONS), // vector.warp_execute_on_lane_0
    (14358, TERMINATOR), // vector.yield
    (14380, PURE_OPERATION), // x86vector.avx.intr.dot
    (14408, PURE_OPERATION), // x86vector.avx.intr.dp.ps.256
    (14439, PURE_OPERATION), // x86vector.avx.intr.rsqrt.ps.256
    (14458, PURE_OPERATION), // x86vector.avx.rsqrt
    (14493, PURE_OPERATION), // x86vector.avx512.intr.mask.compress
    (14535, PURE_OPERATION), // x86vector.avx512.intr.mask.rndscale.pd.512
    (14577, PURE_OPERATION), // x86vector.avx512.intr.mask.rndscale.ps.512
    (14617, PURE_OPERATION), // x86vector.avx512.intr.mask.scalef.pd.512
    (14657, PURE_OPERATION), // x86vector.avx512.intr.mask.scalef.ps.512
    (14697, PURE_OPERATION), // x86vector.avx512.intr.vp2intersect.d.512
    (14737, PURE_OPERATION), // x86vector.avx512.intr.vp2intersect.q.512
    (14767, PURE_OPERATION), // x86vector.avx512.mask.compress
    (14797, PURE_OPERATION), // x86vector.avx512.mask.rndscale
    (14825, PURE_OPERATION), // x86vector.avx512.mask.scalef
    (14854, PURE_OPERATION), // x86vector.avx512.vp2intersect
];
